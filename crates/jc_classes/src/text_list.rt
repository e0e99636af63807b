//! Many texts in one buffer.

ghost use Rattle.std.specs.Prelude.{◌≡◌, ◌<◌, ◌≤◌, ◌-◌, ◌++◌, [], ◌∷◌};
ghost use Rattle.std.specs.Prelude.{drop, length, slice_index_or, take, IfOk, IsTrue, OnErr, OnOk};
ghost use Rattle.jc_classes.specs.inside.TextList.{start_at};

use jc_base::NoMemory;
use std::alloc::Global;
use std::marker::Model;

/// A list of texts, stored one after another in one buffer. Its model is the list of texts.
#[derive(Drop)]
pub struct TextList {
    bytes: Vec<u8>,
    /// The offset in `bytes` where each text ends.
    ends: Vec<u32>,
}

impl Model for TextList {
    ghost use Rattle.std.specs.Prelude.{ℕ, List, length};

    ghost Value = { List (List ℕ) };

    ghost use Rattle.jc_classes.specs.inside.TextList.{texts_from, AreEnds};

    ghost view = { λ a. texts_from a.bytes.items 0 a.ends.items };

    ghost invariant = { λ a. AreEnds (length a.bytes.items) 0 a.ends.items };
}

impl TextList {
    /// Returns an empty list. Does not allocate.
    pub fn new(alloc: Global) -> TextList
        ensures { result ≡ [] }
    {
        TextList {
            bytes: Vec::new(alloc),
            ends: Vec::new(alloc),
        }
    }

    /// Returns an empty list with room for `texts` texts of `bytes` bytes in total.
    ///
    /// Returns `NoMemory` only when an allocation fails.
    pub fn with_room(alloc: Global, texts: usize, bytes: usize) -> Result<TextList, NoMemory>
        ensures { IfOk result (λ list. list ≡ []) }
    {
        let bytes = Vec::with_capacity(alloc, bytes)?;
        let ends = Vec::with_capacity(alloc, texts)?;
        Ok(TextList { bytes, ends })
    }

    /// Appends a text. If there is an error, the list does not change.
    ///
    /// Returns `NoMemory` when an allocation fails, and when the texts would have more than 4,294,967,295 bytes in
    /// total.
    pub fn push(&mut self, text: &[u8]) -> Result<(), NoMemory>
        ensures ok { OnOk result (self.new ≡ self.old ++ text.now ∷ []) }
        ensures err { OnErr result (self.new ≡ self.old) }
    {
        let before = self.bytes.len();
        self.bytes.extend_from_slice(text)?;
        match push_end(&mut self.ends, self.bytes.len()) {
            Ok(()) => Ok(()),
            Err(_) => {
                self.bytes.truncate(before);
                Err(NoMemory)
            }
        }
    }

    /// Removes the last text, if there is one. Does not allocate.
    pub fn pop(&mut self)
        ensures { self.new ≡ take (length self.old - 1) self.old }
    {
        let count = self.ends.len();
        if count == 0 {
            return;
        }
        let start = start(self.ends.as_slice(), count - 1);
        self.ends.pop();
        self.bytes.truncate(start);
    }

    /// Returns the number of texts.
    pub fn len(&self) -> usize
        ensures { result ≡ length self.now }
    {
        self.ends.len()
    }

    /// Returns whether another list is equal. The contract covers only the result `true`. Does not allocate.
    pub fn is_same(&self, other: &TextList) -> bool
        ensures { IsTrue result → self.now ≡ other.now }
    {
        self.ends.as_slice() == other.ends.as_slice()
            && self.bytes.as_slice() == other.bytes.as_slice()
    }

    /// Returns the list without spare capacity. Does not allocate.
    pub fn fitted(self) -> TextList
        ensures { result ≡ self }
    {
        let TextList {
            mut bytes,
            mut ends,
        } = self;
        bytes.shrink_to_fit();
        ends.shrink_to_fit();
        TextList { bytes, ends }
    }

    /// Returns the text at `number`, or an empty text if there is none.
    pub fn text(&self, number: usize) -> &[u8]
        ensures { result.now ≡ slice_index_or self.now number [] }
    {
        let ends = self.ends.as_slice();
        if number >= ends.len() {
            return &[];
        }
        let end = ends[number] as usize;
        part(self.bytes.as_slice(), start(ends, number), end)
    }
}

/// Appends the offset where a text ends. Returns `NoMemory` also if the offset does not fit in a `u32`.
fn push_end(ends: &mut Vec<u32>, end: usize) -> Result<(), NoMemory>
    ensures ok { OnOk result (ends.new.items ≡ ends.old.items ++ end ∷ []) }
    ensures err { OnErr result (ends.new.items ≡ ends.old.items) }
{
    match u32::try_from(end) {
        Ok(end) => Ok(ends.push(end)?),
        Err(_) => Err(NoMemory),
    }
}

/// Returns the offset where the text at `number` begins.
fn start(ends: &[u32], number: usize) -> usize
    requires { number < length ends.now }
    ensures { result ≡ start_at 0 ends.now number }
{
    if number == 0 {
        return 0;
    }
    ends[number - 1] as usize
}

/// Returns the bytes from `start` to `end`.
fn part(bytes: &[u8], start: usize, end: usize) -> &[u8]
    requires rises { start ≤ end }
    requires within { end ≤ length bytes.now }
    ensures { result.now ≡ take (end - start) (drop start bytes.now) }
{
    &bytes[start..end]
}
