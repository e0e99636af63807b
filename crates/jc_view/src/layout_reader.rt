//! One pass over the bytes of a class file, which checks that its parts are whole.

ghost use Rattle.std.specs.Prelude.{◌≡◌, ◌<◌, IfOk, IfSome, ◌≢◌, IfErr};
ghost use Rattle.jc_view.specs.declared.parse_error.ParseError.TheVariants.{NoMemory};
ghost use Rattle.jc_view.specs.Reading.{after, after_attribute, after_member, after_table, after_indexes};
ghost use Rattle.jc_view.specs.Reading.{after_tail, after_body, first_constant, entry_at, entry, pool_at};
ghost use Rattle.jc_view.specs.Reading.{head_at, last_at, parts_at, numbers_value, is_accepted};
ghost use Rattle.jc_view.specs.inside.Outcomes.{MovesBehind, Takes, HasGoodHead};
ghost use Rattle.jc_view.specs.Moves.{Lends};
ghost use Rattle.jc_view.specs.inside.PartsFound.{parts, numbers};
ghost use Rattle.jc_view.specs.inside.Tables.{LendsTable, HasVersion, HasTables, TablesAtTail};

use crate::constant_pool::{ConstantIndex, ConstantKind};
use crate::constant_reader::read_pair;
use crate::entries::Entries;
use crate::parse_error::ParseError;
use crate::view::Version;
use jc_base::Cursor;
use std::alloc::Global;

const MAGIC: u32 = 0xcafebabe;

/// What one pass over a class file finds: the places of its constants by index, the place after them, and the parts
/// there.
#[derive(Drop)]
pub(crate) struct ClassParts<'a> {
    pub(crate) offsets: Vec<Option<usize>>,
    pub(crate) tail: usize,
    pub(crate) version: Version,
    pub(crate) numbers: ClassNumbers,
    pub(crate) tables: ClassTables<'a>,
}

/// The numbers after the constants.
#[derive(Clone, Copy)]
pub(crate) struct ClassNumbers {
    pub(crate) flags: u16,
    pub(crate) this_class: ConstantIndex,
    pub(crate) super_class: ConstantIndex,
}

/// The tables after those numbers.
#[derive(Drop)]
pub(crate) struct ClassTables<'a> {
    pub(crate) interfaces: Entries<'a>,
    pub(crate) fields: Entries<'a>,
    pub(crate) methods: Entries<'a>,
    pub(crate) attributes: Entries<'a>,
}

/// Reads a whole class file.
#[tactic(auto, unfolding(crate::specs::Reading::parts_at))]
pub(crate) fn skip_class<'a>(
    alloc: Global,
    cursor: &mut Cursor<'a>,
) -> Result<ClassParts<'a>, ParseError>
    ensures parts { Takes parts parts_at cursor.old result cursor.new }
    ensures version { IfOk result (λ parts. HasVersion cursor.old parts.version) }
    ensures tables { IfOk result (TablesAtTail cursor.old) }
    ensures memory { IfErr result (λ e. e ≡ NoMemory → HasGoodHead cursor.old) }
{
    let (version, count) = skip_head(cursor)?;
    let offsets = skip_pool(alloc, count, cursor)?;
    let tail = cursor.place();
    let (numbers, tables) = read_last(cursor)?;
    Ok(ClassParts {
        offsets,
        tail,
        version,
        numbers,
        tables,
    })
}

/// Reads the numbers and tables after the constants. They must be the last bytes.
#[tactic(auto, unfolding(crate::specs::Reading::last_at))]
fn read_last<'a>(cursor: &mut Cursor<'a>) -> Result<(ClassNumbers, ClassTables<'a>), ParseError>
    ensures numbers { Takes (λ last. numbers last.0) last_at cursor.old result cursor.new }
    ensures tables { IfOk result (λ last. HasTables cursor.old last.1) }
{
    let Some((numbers, tables)) = read_tail(cursor) else {
        return Err(ParseError::Short);
    };
    if cursor.has_left() {
        return Err(ParseError::Trailing(cursor.place()));
    }
    Ok((numbers, tables))
}

/// Reads the parts before the constants, and returns the version and constant_pool_count, which is not 0.
#[tactic(auto, unfolding(crate::specs::Reading::head_at))]
fn skip_head(cursor: &mut Cursor) -> Result<(Version, u16), ParseError>
    ensures head { Takes (λ head. head.1) head_at cursor.old result cursor.new }
    ensures version { IfOk result (λ head. HasVersion cursor.old head.0) }
    ensures some { IfOk result (λ head. 0 < head.1) }
    ensures memory { IfErr result (λ e. e ≢ NoMemory) }
{
    let Some(magic) = cursor.u4() else {
        return Err(ParseError::Short);
    };
    if magic != MAGIC {
        return Err(ParseError::Magic);
    }
    let (Some(minor), Some(major)) = (cursor.u2(), cursor.u2()) else {
        return Err(ParseError::Short);
    };
    if !is_accepted_version(major, minor) {
        return Err(ParseError::Version);
    }
    let Some(count) = cursor.u2() else {
        return Err(ParseError::Short);
    };
    if count == 0 {
        return Err(ParseError::Count);
    }
    Ok((Version { major, minor }, count))
}

fn is_accepted_version(major: u16, minor: u16) -> bool
    ensures { result ≡ is_accepted major minor }
{
    major == 51 || major == 52 && minor == 0
}

/// Reads the numbers and tables after the constants.
#[tactic(auto, unfolding(crate::specs::Reading::after_tail))]
fn read_tail<'a>(cursor: &mut Cursor<'a>) -> Option<(ClassNumbers, ClassTables<'a>)>
    ensures numbers { Lends (λ tail. numbers tail.0) after_tail numbers_value cursor.old result cursor.new }
    ensures tables { IfSome result (λ tail. HasTables cursor.old tail.1) }
{
    let numbers = read_numbers(cursor)?;
    let interfaces = skip_indexes(cursor)?;
    let fields = skip_members(cursor)?;
    let methods = skip_members(cursor)?;
    let attributes = skip_attributes(cursor)?;
    let tables = ClassTables {
        interfaces,
        fields,
        methods,
        attributes,
    };
    Some((numbers, tables))
}

fn read_numbers(cursor: &mut Cursor) -> Option<ClassNumbers>
    ensures { Lends numbers (after 6) numbers_value cursor.old result cursor.new }
{
    let flags = cursor.u2()?;
    let (this_class, super_class) = read_pair(cursor)?;
    Some(ClassNumbers {
        flags,
        this_class,
        super_class,
    })
}

pub(crate) fn skip_indexes<'a>(cursor: &mut Cursor<'a>) -> Option<Entries<'a>>
    ensures { LendsTable after_indexes cursor.old result cursor.new }
{
    let count = cursor.u2()?;
    let first = cursor.fork();
    cursor.take(2 * count as usize)?;
    Some(Entries {
        left: count,
        cursor: first,
    })
}

fn skip_members<'a>(cursor: &mut Cursor<'a>) -> Option<Entries<'a>>
    ensures { LendsTable (after_table after_member) cursor.old result cursor.new }
{
    let count = cursor.u2()?;
    let first = cursor.fork();
    for _ in 0..count {
        skip_member(cursor)?;
    }
    Some(Entries {
        left: count,
        cursor: first,
    })
}

#[tactic(auto, unfolding(crate::specs::Reading::after_member))]
fn skip_member(cursor: &mut Cursor) -> Option<()>
    ensures { MovesBehind after_member cursor.old result cursor.new }
{
    cursor.take(6)?;
    skip_attributes(cursor)?;
    Some(())
}

/// Skips a table of attributes.
pub(crate) fn skip_attributes<'a>(cursor: &mut Cursor<'a>) -> Option<Entries<'a>>
    ensures { LendsTable (after_table after_attribute) cursor.old result cursor.new }
{
    let count = cursor.u2()?;
    let first = cursor.fork();
    for _ in 0..count {
        skip_attribute(cursor)?;
    }
    Some(Entries {
        left: count,
        cursor: first,
    })
}

#[tactic(auto, unfolding(crate::specs::Reading::after_attribute))]
fn skip_attribute(cursor: &mut Cursor) -> Option<()>
    ensures { MovesBehind after_attribute cursor.old result cursor.new }
{
    cursor.u2()?;
    let length = cursor.u4()?;
    cursor.take(length as usize)?;
    Some(())
}

/// Skips the bytes of a constant after its tag.
pub(crate) fn skip_body(kind: ConstantKind, cursor: &mut Cursor) -> Option<()>
    ensures { MovesBehind (after_body kind) cursor.old result cursor.new }
{
    let size = match kind {
        ConstantKind::Utf8 => cursor.u2()? as usize,
        ConstantKind::Class | ConstantKind::String | ConstantKind::MethodType => 2,
        ConstantKind::MethodHandle => 3,
        ConstantKind::Integer
        | ConstantKind::Float
        | ConstantKind::Fieldref
        | ConstantKind::Methodref
        | ConstantKind::InterfaceMethodref
        | ConstantKind::NameAndType
        | ConstantKind::InvokeDynamic => 4,
        ConstantKind::Long | ConstantKind::Double => 8,
    };
    cursor.take(size)?;
    Some(())
}

/// Skips the constant at the cursor. A `Long` or a `Double` must not have the last index of the pool.
#[tactic(auto, unfolding(crate::specs::Reading::first_constant))]
pub(crate) fn skip_constant(is_last: bool, cursor: &mut Cursor) -> Result<ConstantKind, ParseError>
    ensures { Takes (λ kind. kind) (first_constant is_last) cursor.old result cursor.new }
{
    let place = cursor.place();
    let Some(tag) = cursor.u1() else {
        return Err(ParseError::Short);
    };
    let Some(kind) = ConstantKind::of_tag(tag) else {
        return Err(ParseError::Tag(place));
    };
    if is_last && kind.is_wide() {
        return Err(ParseError::Wide(place));
    }
    skip_body(kind, cursor).ok_or(ParseError::Short)?;
    Ok(kind)
}

/// Skips what is at an index. Returns the place of its constant, if it has one, and whether the constant takes the next
/// index too.
#[tactic(auto, unfolding(crate::specs::Reading::entry_at))]
fn skip_entry(
    is_second: bool,
    is_last: bool,
    cursor: &mut Cursor,
) -> Result<(Option<usize>, bool), ParseError>
    ensures { Takes entry (entry_at is_second is_last) cursor.old result cursor.new }
{
    if is_second {
        return Ok((None, false));
    }
    let place = cursor.place();
    let kind = skip_constant(is_last, cursor)?;
    Ok((Some(place), kind.is_wide()))
}

/// Skips the constants of a pool with this count, and returns the place of each by its index.
pub(crate) fn skip_pool(
    alloc: Global,
    count: u16,
    cursor: &mut Cursor,
) -> Result<Vec<Option<usize>>, ParseError>
    requires { 0 < count }
    ensures { Takes (λ offsets. offsets.items) (pool_at count) cursor.old result cursor.new }
{
    let room = usize::min(count as usize, cursor.rest().len());
    let mut offsets = Vec::with_capacity(alloc, room)?;
    offsets.push(None)?;
    let mut is_second = false;
    for index in 1..count {
        let (offset, is_wide) = skip_entry(is_second, count - index == 1, cursor)?;
        offsets.push(offset)?;
        is_second = is_wide;
    }
    Ok(offsets)
}
