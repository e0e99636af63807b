//! Builds a class file from the lines of a `class` row.

use crate::tokens::{Token, tokens_of};
use anyhow::{Context, Result, bail};
use jc_base::ByteMap;
use std::alloc::Global;

/// Adds bytes. If an allocation fails, the bytes are missing, and the row that needs them is wrong.
fn add(bytes: &mut Vec<u8>, more: &[u8]) {
    let _ = bytes.extend_from_slice(more);
}

fn add_numbers(bytes: &mut Vec<u8>, numbers: &[u16]) {
    for number in numbers {
        add(bytes, &number.to_be_bytes());
    }
}

fn add_table(bytes: &mut Vec<u8>, table: &Table) {
    add_numbers(bytes, &[table.count]);
    add(bytes, &table.rows);
}

/// A table: its count, and its entries as bytes.
#[derive(Drop)]
struct Table {
    count: u16,
    rows: Vec<u8>,
}

impl Table {
    fn new(alloc: Global) -> Table {
        Table {
            count: 0,
            rows: Vec::new(alloc),
        }
    }

    fn add(&mut self, numbers: &[u16], rest: &[u8]) {
        self.count = self.count.wrapping_add(1);
        add_numbers(&mut self.rows, numbers);
        add(&mut self.rows, rest);
    }

    /// Adds a member without attributes.
    fn add_member(&mut self, pool: &mut Pool, tokens: &[Token<'_>]) -> Result<()> {
        let member = member_of(pool, tokens)?;
        self.add(&[member.flags, member.name, member.descriptor, 0], &[]);
        Ok(())
    }
}

/// A constant pool without duplicates.
#[derive(Drop)]
struct Pool {
    indexes: ByteMap<u16>,
    constants: Vec<u8>,
}

impl Pool {
    /// Returns the index of a constant, which is added if it is new.
    fn entry(&mut self, tag: u8, numbers: &[u16], text: &[u8]) -> u16 {
        let mut constant = Vec::new(*self.constants.allocator());
        add(&mut constant, &[tag]);
        add_numbers(&mut constant, numbers);
        add(&mut constant, text);
        self.place(constant)
    }

    fn place(&mut self, constant: Vec<u8>) -> u16 {
        if let Some(index) = self.indexes.get(&constant) {
            return *index;
        }
        let index = self.count();
        add(&mut self.constants, &constant);
        let _ = self.indexes.insert(constant, index);
        index
    }

    /// Returns the greatest index plus one.
    fn count(&self) -> u16 {
        low_bytes(self.indexes.len().wrapping_add(1))
    }

    fn utf8(&mut self, text: &str) -> u16 {
        self.entry(1, &[low_bytes(text.len())], text.as_bytes())
    }

    fn class(&mut self, name: &str) -> u16 {
        let name = self.utf8(name);
        self.entry(7, &[name], &[])
    }

    fn member(&mut self, tag: u8, class: &str, name: &str, descriptor: &str) -> u16 {
        let class = self.class(class);
        let name = self.utf8(name);
        let descriptor = self.utf8(descriptor);
        let entry = self.entry(12, &[name, descriptor], &[]);
        self.entry(tag, &[class, entry], &[])
    }
}

/// Returns the lowest two bytes of a number.
fn low_bytes(number: usize) -> u16 {
    (number % (1 << 16)) as u16
}

fn low_byte(number: u16) -> u8 {
    (number % (1 << 8)) as u8
}

/// A class file that is being built.
#[derive(Drop)]
struct Assembler {
    head: Head,
    pool: Pool,
    interfaces: Table,
    fields: Table,
    methods: Table,
}

/// The numbers of a class file that is being built, apart from its tables.
#[derive(Clone, Copy)]
struct Head {
    major: u16,
    flags: u16,
    this_class: u16,
    super_class: u16,
}

impl Head {
    /// Reads the tokens of a line that sets one of the numbers.
    fn set(&mut self, pool: &mut Pool, word: &str, values: &[Token<'_>]) -> Result<()> {
        match values {
            [Token::Word(value)] => self.set_word(word, value),
            [Token::Quoted(name)] if word == "super" => {
                self.super_class = pool.class(name);
                Ok(())
            }
            _ => bail!("no line of a class"),
        }
    }

    fn set_word(&mut self, word: &str, value: &str) -> Result<()> {
        match word {
            "version" => self.major = value.parse::<u16>()?,
            "flags" => self.flags = hexadecimal(value)?,
            "super" if value == "none" => self.super_class = 0,
            _ => bail!("no line of a class"),
        }
        Ok(())
    }
}

/// The flags, the name and the descriptor of a field or a method.
#[derive(Clone, Copy)]
struct Member {
    flags: u16,
    name: u16,
    descriptor: u16,
}

fn member_of(pool: &mut Pool, tokens: &[Token<'_>]) -> Result<Member> {
    let [
        Token::Word(flags),
        Token::Quoted(name),
        Token::Quoted(descriptor),
    ] = tokens
    else {
        bail!("no line of a class");
    };
    Ok(Member {
        flags: hexadecimal(flags)?,
        name: pool.utf8(name),
        descriptor: pool.utf8(descriptor),
    })
}

fn hexadecimal(word: &str) -> Result<u16> {
    u16::from_str_radix(word, 16).context("flags in hexadecimal")
}

/// The bits NATIVE and ABSTRACT. A method with one of them has no `Code`.
const WITHOUT_CODE: u16 = 0x0500;

/// Adds a method with this code. `attribute` is the index of the text `Code`.
fn add_method(methods: &mut Table, method: Member, attribute: u16, code: &[u8]) {
    let length = low_bytes(code.len());
    let rows = &mut methods.rows;
    methods.count = methods.count.wrapping_add(1);
    add_numbers(
        rows,
        &[method.flags, method.name, method.descriptor, 1, attribute],
    );
    add_numbers(rows, &[0, length.wrapping_add(12), 2, 9, 0, length]);
    add(rows, code);
    add_numbers(rows, &[0, 0]);
}

/// Returns the instructions of the lines up to the first that does not begin with `does`, and then `return`.
fn code_of(alloc: Global, pool: &mut Pool, lines: &[&str]) -> Result<Vec<u8>> {
    let mut code = Vec::new(alloc);
    for line in lines {
        if !add_insn(alloc, pool, &mut code, line)? {
            break;
        }
    }
    add(&mut code, &[0xb1]);
    Ok(code)
}

/// Adds the instruction of a line, if the line begins with `does`. Returns whether it does.
fn add_insn(alloc: Global, pool: &mut Pool, code: &mut Vec<u8>, line: &str) -> Result<bool> {
    let (tokens, _) = tokens_of(alloc, line)?;
    match tokens.as_slice() {
        [Token::Word("does"), rest @ ..] => {
            instruct(pool, code, rest)?;
            Ok(true)
        }
        _ => Ok(false),
    }
}

/// Adds an instruction: its opcode, the index of its constant, and the operands after that.
fn instruct(pool: &mut Pool, code: &mut Vec<u8>, tokens: &[Token<'_>]) -> Result<()> {
    let [Token::Word(opcode), operands @ ..] = tokens else {
        bail!("no instruction");
    };
    add(code, &[low_byte(hexadecimal(opcode)?)]);
    add_operands(code, pool, operands)
}

/// Adds the index of a constant and the number after it, if there are such.
fn add_operands(code: &mut Vec<u8>, pool: &mut Pool, operands: &[Token<'_>]) -> Result<()> {
    let (constant, number) = match operands {
        [constant @ .., Token::Word(number)] => (constant, Some(hexadecimal(number)?)),
        _ => (operands, None),
    };
    if !constant.is_empty() {
        add_numbers(code, &[refer(pool, constant)?]);
    }
    if let Some(number) = number {
        add_numbers(code, &[number]);
    }
    Ok(())
}

/// Returns the index of a constant that names a class, a field or a method.
fn refer(pool: &mut Pool, tokens: &[Token<'_>]) -> Result<u16> {
    match tokens {
        [Token::Word("class"), Token::Quoted(name)] => Ok(pool.class(name)),
        [
            Token::Word(kind),
            Token::Quoted(class),
            Token::Quoted(name),
            Token::Quoted(descriptor),
        ] => Ok(pool.member(tag_of(kind)?, class, name, descriptor)),
        _ => bail!("no reference"),
    }
}

fn tag_of(kind: &str) -> Result<u8> {
    match kind {
        "field" => Ok(9),
        "method" => Ok(10),
        "imethod" => Ok(11),
        _ => bail!("no kind of reference"),
    }
}

impl Assembler {
    fn new(alloc: Global, name: &str) -> Assembler {
        let mut pool = Pool {
            indexes: ByteMap::new(alloc),
            constants: Vec::new(alloc),
        };
        let this_class = pool.class(name);
        let super_class = pool.class("java/lang/Object");
        Assembler {
            head: Head {
                major: 52,
                flags: 0x0021,
                this_class,
                super_class,
            },
            pool,
            interfaces: Table::new(alloc),
            fields: Table::new(alloc),
            methods: Table::new(alloc),
        }
    }

    fn take_lines(&mut self, alloc: Global, lines: &[&str]) -> Result<()> {
        let mut in_code = false;
        for (place, line) in lines.iter().enumerate() {
            let (tokens, _) = tokens_of(alloc, line)?;
            let (_, next) = lines.split_at(place + 1);
            in_code = self.take(alloc, &tokens, next, in_code)?;
        }
        Ok(())
    }

    /// Reads the tokens of a line, and returns whether it is of a method with a `Code`. Then the next line may be an
    /// instruction, which was read with the method. `in_code` says whether the line before was of such a method.
    fn take(
        &mut self,
        alloc: Global,
        tokens: &[Token<'_>],
        next: &[&str],
        in_code: bool,
    ) -> Result<bool> {
        let [Token::Word(word), rest @ ..] = tokens else {
            bail!("no line of a class");
        };
        match *word {
            "does" if in_code => return Ok(true),
            "method" => return self.method(alloc, rest, next),
            "refers" => self.refer(rest)?,
            "field" => self.fields.add_member(&mut self.pool, rest)?,
            "implements" => self.implement(rest)?,
            _ => self.head.set(&mut self.pool, word, rest)?,
        }
        Ok(false)
    }

    fn refer(&mut self, tokens: &[Token<'_>]) -> Result<()> {
        refer(&mut self.pool, tokens)?;
        Ok(())
    }

    fn implement(&mut self, tokens: &[Token<'_>]) -> Result<()> {
        let [Token::Quoted(name)] = tokens else {
            bail!("no line of a class");
        };
        self.interfaces.add(&[self.pool.class(name)], &[]);
        Ok(())
    }

    fn method(&mut self, alloc: Global, tokens: &[Token<'_>], next: &[&str]) -> Result<bool> {
        take_method(alloc, &mut self.pool, &mut self.methods, tokens, next)
    }

    fn file(&self, alloc: Global) -> Vec<u8> {
        let mut file = Vec::new(alloc);
        add_numbers(
            &mut file,
            &[0xcafe, 0xbabe, 0, self.head.major, self.pool.count()],
        );
        add(&mut file, &self.pool.constants);
        add_numbers(
            &mut file,
            &[self.head.flags, self.head.this_class, self.head.super_class],
        );
        add_table(&mut file, &self.interfaces);
        add_table(&mut file, &self.fields);
        add_table(&mut file, &self.methods);
        add_numbers(&mut file, &[0]);
        file
    }
}

/// Adds a method, and returns whether it has a `Code`. Its instructions are those of the next lines that begin with
/// `does`, and then `return`.
fn take_method(
    alloc: Global,
    pool: &mut Pool,
    methods: &mut Table,
    tokens: &[Token<'_>],
    next: &[&str],
) -> Result<bool> {
    let method = member_of(pool, tokens)?;
    if method.flags & WITHOUT_CODE != 0 {
        methods.add(&[method.flags, method.name, method.descriptor, 0], &[]);
        return Ok(false);
    }
    let attribute = pool.utf8("Code");
    let code = code_of(alloc, pool, next)?;
    add_method(methods, method, attribute, &code);
    Ok(true)
}

/// Returns the class file with this name that the lines describe.
pub(crate) fn assemble(alloc: Global, name: &str, lines: &[&str]) -> Result<Vec<u8>> {
    let mut assembler = Assembler::new(alloc, name);
    assembler.take_lines(alloc, lines)?;
    Ok(assembler.file(alloc))
}
