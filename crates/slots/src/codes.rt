// What each code of the erased form has, by tables of 19 entries packed into one number each, code 00 lowest: a look-up is a shift. A byte that
// is no code has the tables' default. The codes are bytes and no enum: what `value`, `skip`, `place`, `aim` and `put` promise holds of all 256
// bytes (`is_value`, `Skipped`, `Place`, `Aim`, `Put`): `put` reads on over a byte that is no code and `place` stops at one, by those defaults.
ghost use Rattle.std.specs.Prelude.{◌≡◌, ◌+◌, ◌≤◌};
ghost use Rattle.std.specs.Int.{from_bool};
ghost use Rattle.slots.specs.Codes.{entry_of, is_code, kids_of, field_of, bind1, bind2, goes1, goes2, is_value, open_of, Told};

// The codes by name (document 01, "The running state"); OPEN is an open section.
pub const UNIT: u8 = 0x01;

pub const NUMBER: u8 = 0x02;

pub const VARIABLE: u8 = 0x03;

pub const FUNCTION: u8 = 0x04;

pub const APPLY: u8 = 0x05;

pub const NEW_CELL: u8 = 0x06;

pub const READ: u8 = 0x07;

pub const WRITE: u8 = 0x08;

pub const FORK: u8 = 0x09;

pub const NEW_LOCK: u8 = 0x0A;

pub const SECTION: u8 = 0x0B;

pub const LET: u8 = 0x0C;

pub const THEN: u8 = 0x0D;

pub const ADD: u8 = 0x0E;

pub const IF: u8 = 0x0F;

pub const LOCK: u8 = 0x10;

pub const CELL: u8 = 0x11;

pub const OPEN: u8 = 0x12;

const FIRST: u8 = UNIT;

const LAST: u8 = OPEN;

// The tables.
const KIDS: usize = 0b01_00_00_11_10_10_10_10_01_01_10_01_01_10_01_00_00_00_00;

const WIDTHS: usize = 0b010_010_010_001_001_001_001_001_001_001_001_001_001_001_001_010_101_001_001;

const BINDS_FIRST: usize = 0b000_0000_0100_0001_0000;

const BINDS_SECOND: usize = 0b000_0001_0000_0000_0000;

const GOES_FIRST: usize = 0b100_1111_1001_1110_0000;

const GOES_SECOND: usize = 0b000_0100_0001_0010_0000;

const VALUES: usize = 0b011_0000_0000_0001_0110;

// What a table of so many bits a code has for c, 0 where c is no code.
fn entry(table: usize, bits: u8, c: u8) -> usize
    requires { bits ≤ 3 }
    ensures { result ≡ entry_of table bits c }
{
    if LAST < c {
        return 0;
    }
    (table >> (bits * c)) % (1 << bits)
}

#[tactic(auto, unfolding(crate::specs::Codes::is_code))]
pub(crate) fn is_code(c: u8) -> bool
    ensures { result ≡ is_code c }
{
    matches!(c, FIRST..=LAST)
}

// How many parts.
#[tactic(auto, using(crate::specs::Codes::told_kids))]
pub(crate) fn kids(c: u8) -> usize
    ensures { Told (kids_of c) 3 result }
{
    entry(KIDS, 2, c)
}

// How many bytes it takes with those of its own, which stand between it and its parts.
#[tactic(auto, using(crate::specs::Codes::told_width, crate::specs::Codes::told_width_past))]
pub(crate) fn width(c: u8) -> usize
    ensures { Told (field_of c + 1) 5 result }
{
    if LAST < c {
        return 1;
    }
    entry(WIDTHS, 3, c)
}

// Whether its first part stands under a binder of it.
#[tactic(auto, using(crate::specs::Codes::told_bind1))]
pub(crate) fn binds_first(c: u8) -> bool
    ensures { from_bool result ≡ bind1 c }
{
    entry(BINDS_FIRST, 1, c) == 1
}

// Whether its second part stands under a binder of it.
#[tactic(auto, using(crate::specs::Codes::told_bind2))]
pub(crate) fn binds_second(c: u8) -> bool
    ensures { from_bool result ≡ bind2 c }
{
    entry(BINDS_SECOND, 1, c) == 1
}

// Whether evaluation goes into its first part.
#[tactic(auto, using(crate::specs::Codes::entry_goes1))]
pub(crate) fn goes_first(c: u8) -> bool
    ensures { result ≡ goes1 c }
{
    entry(GOES_FIRST, 1, c) == 1
}

// Whether evaluation goes into its second part, once the first is a value.
#[tactic(auto, using(crate::specs::Codes::entry_goes2))]
pub(crate) fn goes_second(c: u8) -> bool
    ensures { result ≡ goes2 c }
{
    entry(GOES_SECOND, 1, c) == 1
}

// Whether an expression with this code is a value.
#[tactic(auto, using(crate::specs::Codes::entry_value))]
pub fn value(c: u8) -> bool
    ensures { result ≡ is_value c }
{
    entry(VALUES, 1, c) == 1
}

// Whether it is an open section.
#[tactic(auto, unfolding(crate::specs::Codes::open_of))]
pub(crate) fn is_open(c: u8) -> bool
    ensures { from_bool result ≡ open_of c }
{
    c == OPEN
}
