// The codes of an image's bytes (document 01, "The program image"): of expressions and of types.
#![tactic(auto)]

ghost use Rattle.std.specs.Prelude.{◌≡◌};
ghost use Rattle.codes.specs.Codes.{TypeDecodes, ExpDecodes, exp_byte};

// A byte that is no code where one is due.
#[derive(Clone, Copy, Debug, PartialEq, Eq)]
pub struct NoSuchCode;

#[derive(Clone, Copy, Debug, PartialEq, Eq)]
pub enum TypeCode {
    Unit = 0x20,
    Int = 0x21,
    Lock = 0x22,
    Ref = 0x23,
    Function = 0x24,
}

impl TryFrom<u8> for TypeCode {
    type Error = NoSuchCode;

    ghost try_from_gives = { TypeDecodes };

    // Inlined, so that a match on the code is one on the byte.
    #[inline(always)]
    fn try_from(b: u8) -> Result<TypeCode, NoSuchCode> {
        match b {
            0x20 => Ok(TypeCode::Unit),
            0x21 => Ok(TypeCode::Int),
            0x22 => Ok(TypeCode::Lock),
            0x23 => Ok(TypeCode::Ref),
            0x24 => Ok(TypeCode::Function),
            _ => Err(NoSuchCode),
        }
    }
}

#[derive(Clone, Copy, Debug, PartialEq, Eq)]
pub enum ExpCode {
    Unit = 0x01,
    Number = 0x02,
    Variable = 0x03,
    Function = 0x04,
    Apply = 0x05,
    NewCell = 0x06,
    Read = 0x07,
    Write = 0x08,
    Fork = 0x09,
    NewLock = 0x0A,
    Section = 0x0B,
    Let = 0x0C,
    Then = 0x0D,
    Add = 0x0E,
    If = 0x0F,
}

impl TryFrom<u8> for ExpCode {
    type Error = NoSuchCode;

    ghost try_from_gives = { ExpDecodes };

    fn try_from(b: u8) -> Result<ExpCode, NoSuchCode> {
        match b {
            0x01 => Ok(ExpCode::Unit),
            0x02 => Ok(ExpCode::Number),
            0x03 => Ok(ExpCode::Variable),
            0x04 => Ok(ExpCode::Function),
            0x05 => Ok(ExpCode::Apply),
            0x06 => Ok(ExpCode::NewCell),
            0x07 => Ok(ExpCode::Read),
            0x08 => Ok(ExpCode::Write),
            0x09 => Ok(ExpCode::Fork),
            0x0A => Ok(ExpCode::NewLock),
            0x0B => Ok(ExpCode::Section),
            0x0C => Ok(ExpCode::Let),
            0x0D => Ok(ExpCode::Then),
            0x0E => Ok(ExpCode::Add),
            0x0F => Ok(ExpCode::If),
            _ => Err(NoSuchCode),
        }
    }
}

impl From<ExpCode> for u8 {
    ghost from_gives = { λ code b. b ≡ exp_byte code };

    fn from(code: ExpCode) -> u8 {
        code as u8
    }
}
