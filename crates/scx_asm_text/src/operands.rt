ghost use Rattle.std.specs.Prelude.{◌≡◌, option_map};
ghost use Rattle.scx_asm_text.specs.Tokens.{lexemes};
ghost use Rattle.scx_asm_text.specs.Items.{destination_of, literal, read_literal, read_offset, read_distance, read_destination, read_word, read_register, read_operand, read_comparison, star, opening, closing, read_access, read_address, read_memory_operand, read_value, read_goto};

use crate::items::{Literal, MemoryOperand, Target, WrittenOperand};
use crate::lexer::Token;
use crate::symbols::Symbol;
use crate::words::{access_named, is_word, register_in};
use scx_isa_semantics::{Access, Comparison, Operation, Register, Width};

/// A value read at the front of a line, and the tokens after it.
pub(crate) type Read<'t, 'a, T> = Option<(T, &'t [Token<'a>])>;

fn literal(is_negative: bool, magnitude: Option<u64>) -> Literal
    ensures { result ≡ literal is_negative magnitude }
{
    Literal {
        is_negative,
        magnitude,
    }
}

/// A number; its sign is directly before it.
pub(crate) fn read_literal<'t, 'a>(tokens: &'t [Token<'a>]) -> Read<'t, 'a, Literal>
    ensures { option_map (λ x. (x.0, lexemes x.1.now)) result ≡ read_literal (lexemes tokens.now) }
{
    match tokens {
        [
            Token::Mark(Symbol::Minus),
            Token::Number(true, magnitude),
            rest @ ..,
        ] => Some((literal(true, *magnitude), rest)),
        [Token::Number(_, magnitude), rest @ ..] => Some((literal(false, *magnitude), rest)),
        _ => None,
    }
}

/// The offset of an address; the sign is a token of its own.
pub(crate) fn read_offset<'t, 'a>(tokens: &'t [Token<'a>]) -> Read<'t, 'a, Literal>
    ensures { option_map (λ x. (x.0, lexemes x.1.now)) result ≡ read_offset (lexemes tokens.now) }
{
    match tokens {
        [
            Token::Mark(Symbol::Plus),
            Token::Number(_, magnitude),
            rest @ ..,
        ] => Some((literal(false, *magnitude), rest)),
        [
            Token::Mark(Symbol::Minus),
            Token::Number(_, magnitude),
            rest @ ..,
        ] => Some((literal(true, *magnitude), rest)),
        _ => None,
    }
}

/// The offset of a jump; the sign is a token of its own, which the number touches.
fn read_distance<'t, 'a>(tokens: &'t [Token<'a>]) -> Read<'t, 'a, Literal>
    ensures { option_map (λ x. (x.0, lexemes x.1.now)) result ≡ read_distance (lexemes tokens.now) }
{
    match tokens {
        [
            Token::Mark(Symbol::Plus),
            Token::Number(true, magnitude),
            rest @ ..,
        ] => Some((literal(false, *magnitude), rest)),
        [
            Token::Mark(Symbol::Minus),
            Token::Number(true, magnitude),
            rest @ ..,
        ] => Some((literal(true, *magnitude), rest)),
        _ => None,
    }
}

pub(crate) fn read_target<'t, 'a>(tokens: &'t [Token<'a>]) -> Read<'t, 'a, Target<'a>>
    ensures { option_map (λ x. (destination_of x.0, lexemes x.1.now)) result
        ≡ read_destination (lexemes tokens.now) }
{
    match tokens {
        [Token::Word(label), rest @ ..] => Some((Target::Label(label), rest)),
        _ => {
            let (distance, rest) = read_distance(tokens)?;
            Some((Target::Distance(distance), rest))
        }
    }
}

pub(crate) fn read_word<'t, 'a>(tokens: &'t [Token<'a>]) -> Read<'t, 'a, &'a [u8]>
    ensures { option_map (λ x. (x.0.now, lexemes x.1.now)) result ≡ read_word (lexemes tokens.now) }
{
    match tokens {
        [Token::Word(word), rest @ ..] => Some((word, rest)),
        _ => None,
    }
}

pub(crate) fn read_register<'t, 'a>(width: Width, tokens: &'t [Token<'a>]) -> Read<'t, 'a, Register>
    ensures { option_map (λ x. (x.0, lexemes x.1.now)) result
        ≡ read_register width (lexemes tokens.now) }
{
    match tokens {
        [Token::Word(name), rest @ ..] => Some((register_in(width, name)?, rest)),
        _ => None,
    }
}

/// The second operand: a register of that width, or a number.
#[inline(always)]
pub(crate) fn read_operand<'t, 'a>(
    width: Width,
    tokens: &'t [Token<'a>],
) -> Read<'t, 'a, WrittenOperand>
    ensures { option_map (λ x. (x.0, lexemes x.1.now)) result
        ≡ read_operand width (lexemes tokens.now) }
{
    match tokens {
        [Token::Word(name), rest @ ..] => {
            Some((WrittenOperand::Register(register_in(width, name)?), rest))
        }
        _ => {
            let (number, rest) = read_literal(tokens)?;
            Some((WrittenOperand::Number(number), rest))
        }
    }
}

pub(crate) fn read_comparison<'t, 'a>(tokens: &'t [Token<'a>]) -> Read<'t, 'a, Comparison>
    ensures { option_map (λ x. (x.0, lexemes x.1.now)) result
        ≡ read_comparison (lexemes tokens.now) }
{
    match tokens {
        [Token::Mark(Symbol::Compare(comparison)), rest @ ..] => Some((*comparison, rest)),
        _ => None,
    }
}

pub(crate) fn behind_star<'t, 'a>(tokens: &'t [Token<'a>]) -> Option<&'t [Token<'a>]>
    ensures { option_map (λ rest. lexemes rest.now) result ≡ star (lexemes tokens.now) }
{
    match tokens {
        [Token::Mark(Symbol::Star), rest @ ..] => Some(rest),
        _ => None,
    }
}

pub(crate) fn behind_opening<'t, 'a>(tokens: &'t [Token<'a>]) -> Option<&'t [Token<'a>]>
    ensures { option_map (λ rest. lexemes rest.now) result ≡ opening (lexemes tokens.now) }
{
    match tokens {
        [Token::Mark(Symbol::Opening), rest @ ..] => Some(rest),
        _ => None,
    }
}

pub(crate) fn behind_closing<'t, 'a>(tokens: &'t [Token<'a>]) -> Option<&'t [Token<'a>]>
    ensures { option_map (λ rest. lexemes rest.now) result ≡ closing (lexemes tokens.now) }
{
    match tokens {
        [Token::Mark(Symbol::Closing), rest @ ..] => Some(rest),
        _ => None,
    }
}

#[inline(always)]
pub(crate) fn read_access<'t, 'a>(tokens: &'t [Token<'a>]) -> Read<'t, 'a, Access>
    ensures { option_map (λ x. (x.0, lexemes x.1.now)) result ≡ read_access (lexemes tokens.now) }
{
    match tokens {
        [Token::Word(name), rest @ ..] => Some((access_named(name)?, rest)),
        _ => None,
    }
}

/// A register and an offset, in parentheses.
#[inline(always)]
pub(crate) fn read_address<'t, 'a>(tokens: &'t [Token<'a>]) -> Read<'t, 'a, (Register, Literal)>
    ensures { option_map (λ x. (x.0, lexemes x.1.now)) result ≡ read_address (lexemes tokens.now) }
{
    let (base, rest) = read_register(Width::Bits64, behind_opening(tokens)?)?;
    let (offset, rest) = read_offset(rest)?;
    Some(((base, offset), behind_closing(rest)?))
}

/// Memory, after the star that it begins with.
#[inline(always)]
pub(crate) fn read_memory_operand<'t, 'a>(tokens: &'t [Token<'a>]) -> Read<'t, 'a, MemoryOperand>
    ensures { option_map (λ x. (x.0, lexemes x.1.now)) result
        ≡ read_memory_operand (lexemes tokens.now) }
{
    let (access, rest) = read_access(behind_opening(tokens)?)?;
    let ((base, offset), rest) = read_address(behind_closing(behind_star(rest)?)?)?;
    let memory = MemoryOperand {
        access,
        base,
        offset,
    };
    Some((memory, rest))
}

/// The operand after `=`.
pub(crate) fn read_given<'t, 'a>(tokens: &'t [Token<'a>]) -> Read<'t, 'a, WrittenOperand>
    ensures { option_map (λ x. (x.0, lexemes x.1.now)) result ≡ read_value (lexemes tokens.now) }
{
    match tokens {
        [Token::Mark(Symbol::Assign(Operation::Move)), rest @ ..] => {
            read_operand(Width::Bits64, rest)
        }
        _ => None,
    }
}

/// The target after `goto`.
pub(crate) fn read_goto<'t, 'a>(tokens: &'t [Token<'a>]) -> Read<'t, 'a, Target<'a>>
    ensures { option_map (λ x. (destination_of x.0, lexemes x.1.now)) result
        ≡ read_goto (lexemes tokens.now) }
{
    match tokens {
        [Token::Word(name), rest @ ..] if is_word(name, "goto") => read_target(rest),
        _ => None,
    }
}
