//! The fields of a line, each after a space.

ghost use Rattle.std.specs.Prelude.{◌≡◌, ◌++◌, OnOk};
ghost use Rattle.std.specs.Fmt.{decimal, signed_decimal};
ghost use Rattle.om_printing.specs.Texts.{code_name, code_text, field_text, spaced, stated};

use super::field::Field;
pub use super::pieces::push;
use super::pieces::{push_decimal, push_subset, push_vector};
use itoa::Buffer;
use om_document::Code;
use om_grassmann::Statement;
use om_signs::NoMemory;

/// Appends a space and a number.
pub fn push_number(text: &mut Vec<u8>, n: u128) -> Result<(), NoMemory>
    ensures { OnOk result (text.new.items ≡ text.old.items ++ spaced (decimal n)) }
{
    push(text, b" ")?;
    push_decimal(text, n)
}

/// Appends a space and a number with a sign.
pub fn push_signed(text: &mut Vec<u8>, n: i128) -> Result<(), NoMemory>
    ensures { OnOk result (text.new.items ≡ text.old.items ++ spaced (signed_decimal n)) }
{
    push(text, b" ")?;
    let mut buffer = Buffer::new();
    push(text, buffer.format(n).as_bytes())
}

/// The word of a code.
fn name_of(code: Code) -> &'static [u8]
    ensures { result.now ≡ code_name code }
{
    match code {
        Code::Version => b"version",
        Code::Kind => b"kind",
        Code::Header => b"header",
        Code::Elements { .. } => b"elements",
        Code::Rank { .. } => b"rank",
        Code::Size { .. } => b"size",
        Code::Setting => b"setting",
        Code::Sign => b"sign",
        Code::Length => b"length",
        Code::Block => b"block",
        Code::Number => b"number",
        Code::Many => b"many",
        Code::Few => b"few",
        Code::After => b"after",
        Code::Claim => b"claim",
        Code::Entry => b"entry",
        Code::Missing => b"missing",
    }
}

/// Appends a space and a code, with its number if it has one.
fn push_code(text: &mut Vec<u8>, code: Code) -> Result<(), NoMemory>
    ensures { OnOk result (text.new.items ≡ text.old.items ++ spaced (code_text code)) }
{
    push(text, b" ")?;
    push(text, name_of(code))?;
    match code {
        Code::Elements { n } | Code::Rank { r: n } | Code::Size { values: n } => push_number(
            text,
            u128::from(n),
        ),
        Code::Version
        | Code::Kind
        | Code::Header
        | Code::Setting
        | Code::Sign
        | Code::Length
        | Code::Block
        | Code::Number
        | Code::Many
        | Code::Few
        | Code::After
        | Code::Claim
        | Code::Entry
        | Code::Missing => Ok(()),
    }
}

/// Appends the five elements and the two terms of a statement, each after a space.
fn push_statement(text: &mut Vec<u8>, statement: Statement) -> Result<(), NoMemory>
    ensures { OnOk result (text.new.items ≡ text.old.items ++ stated statement) }
{
    push_number(text, u128::from(statement.a))?;
    push_number(text, u128::from(statement.b))?;
    push_number(text, u128::from(statement.c))?;
    push_number(text, u128::from(statement.d))?;
    push_number(text, u128::from(statement.e))?;
    push_number(text, u128::from(statement.small))?;
    push_number(text, u128::from(statement.big))
}

/// Appends a space and a field.
pub fn push_field(text: &mut Vec<u8>, field: &Field) -> Result<(), NoMemory>
    ensures { OnOk result (text.new.items ≡ text.old.items ++ field_text field.now) }
{
    match field {
        Field::Small(n) => push_number(text, u128::from(*n)),
        Field::Number(n) => push_number(text, u128::from(*n)),
        Field::Large(n) => push_number(text, *n),
        Field::Set(subset) => {
            push(text, b" ")?;
            push_subset(text, *subset)
        }
        Field::Signs(vector) => {
            push(text, b" ")?;
            push_vector(text, *vector)
        }
        Field::Code(code) => push_code(text, *code),
        Field::Statement(statement) => push_statement(text, *statement),
    }
}
