//! The commands of a session's lines.
ghost use Rattle.std.specs.Prelude.{◌≡◌, MatchOption, drop, false, length, true};
ghost use Rattle.jc_input.specs.Lines.{begins_with_word, command_of};
ghost use Rattle.jc_input.specs.LentCommands.{command_lent};

/// The largest number of bytes of a line, without its LF.
const LONGEST_LINE: usize = 8192;

/// The command of a line. Paths, prefixes and names are borrowed from the line.
#[derive(Clone, Copy)]
pub enum Command<'a> {
    /// `add PATH`: adds a file.
    Add(&'a [u8]),
    /// `replace PATH`: replaces the bytes of a file.
    Replace(&'a [u8]),
    /// `remove PATH`: removes a file.
    Remove(&'a [u8]),
    /// `outside add PREFIX`: adds an outside prefix.
    AddPrefix(&'a [u8]),
    /// `outside drop PREFIX`: drops an outside prefix.
    DropPrefix(&'a [u8]),
    /// `report`: writes the report.
    Report,
    /// `part NAME`: writes the part of a class.
    Part(&'a [u8]),
    /// `list NAME`: lists the file from which a class is taken.
    List(&'a [u8]),
    /// `dependants NAME`: writes the names of the classes whose reach has a name.
    Dependants(&'a [u8]),
    /// `end`: ends the session.
    End,
    /// Any other line, and a line over 8,192 bytes.
    Bad,
}

/// Returns the command of a line, which is given without its LF. Does not allocate.
pub fn parse_line(line: &[u8]) -> Command<'_>
    ensures { command_lent result ≡ command_of line.now }
{
    if line.len() > LONGEST_LINE {
        Command::Bad
    } else if let Some(path) = after(line, b"add ") {
        Command::Add(path)
    } else if let Some(path) = after(line, b"replace ") {
        Command::Replace(path)
    } else if let Some(path) = after(line, b"remove ") {
        Command::Remove(path)
    } else if let Some(prefix) = after(line, b"outside add ") {
        Command::AddPrefix(prefix)
    } else if let Some(prefix) = after(line, b"outside drop ") {
        Command::DropPrefix(prefix)
    } else if line == b"report".as_slice() {
        Command::Report
    } else if let Some(name) = after(line, b"part ") {
        Command::Part(name)
    } else if let Some(name) = after(line, b"list ") {
        Command::List(name)
    } else if let Some(name) = after(line, b"dependants ") {
        Command::Dependants(name)
    } else if line == b"end".as_slice() {
        Command::End
    } else {
        Command::Bad
    }
}

/// Returns the rest of a line that begins with a word.
fn after<'a>(line: &'a [u8], word: &[u8]) -> Option<&'a [u8]>
    ensures { MatchOption result
        (begins_with_word word.now line.now ≡ false)
        (λ rest. (begins_with_word word.now line.now ≡ true) × (rest.now ≡ drop (length word.now) line.now)) }
{
    if line.starts_with(word) {
        Some(&line[word.len()..])
    } else {
        None
    }
}
