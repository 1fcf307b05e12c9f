ghost use Rattle.std.specs.Prelude.{◌≡◌, ◌≤◌, nat_eq, length, get_or, Some, if◌then◌else◌};
ghost use Rattle.scx_asm_text.specs.declared.symbols.Symbol.TheVariants.{Assign, Compare};
ghost use Rattle.scx_asm_text.specs.Symbols.{spelling, first_of, symbol_at};

use scx_isa_semantics::{Comparison, Operation};

/// An operator, a comparison or a mark of punctuation.
#[derive(Clone, Copy)]
pub enum Symbol {
    /// Arithmetic that assigns its result, as `+=`; for a move `=`.
    Assign(Operation),
    Compare(Comparison),
    Plus,
    Minus,
    Star,
    Opening,
    Closing,
    Colon,
}

/// The symbols that begin with an `s`, the longer ones first.
const SIGNED: [Symbol; 7] = [
    Symbol::Assign(Operation::ShiftRightSigned),
    Symbol::Assign(Operation::SignedDivide),
    Symbol::Assign(Operation::SignedModulo),
    Symbol::Compare(Comparison::SignedGreaterOrEqual),
    Symbol::Compare(Comparison::SignedLessOrEqual),
    Symbol::Compare(Comparison::SignedGreater),
    Symbol::Compare(Comparison::SignedLess),
];

/// Those that begin with `<`.
const LESS: [Symbol; 3] = [
    Symbol::Assign(Operation::ShiftLeft),
    Symbol::Compare(Comparison::LessOrEqual),
    Symbol::Compare(Comparison::Less),
];

/// Those that begin with `>`.
const GREATER: [Symbol; 3] = [
    Symbol::Assign(Operation::ShiftRight),
    Symbol::Compare(Comparison::GreaterOrEqual),
    Symbol::Compare(Comparison::Greater),
];

impl Symbol {
    /// The text of the symbol.
    pub fn text(self) -> &'static str
        ensures text { result.now ≡ spelling self }
        ensures short { length result.now ≤ 4 }
    {
        match self {
            Symbol::Assign(operation) => assignment_text(operation),
            Symbol::Compare(comparison) => comparison_text(comparison),
            Symbol::Plus => "+",
            Symbol::Minus => "-",
            Symbol::Star => "*",
            Symbol::Opening => "(",
            Symbol::Closing => ")",
            Symbol::Colon => ":",
        }
    }
}

fn assignment_text(operation: Operation) -> &'static str
    ensures text { result.now ≡ spelling (Assign operation) }
    ensures short { length result.now ≤ 4 }
{
    match operation {
        Operation::Add => "+=",
        Operation::Subtract => "-=",
        Operation::Multiply => "*=",
        Operation::Divide => "/=",
        Operation::SignedDivide => "s/=",
        Operation::Or => "|=",
        Operation::And => "&=",
        Operation::Xor => "^=",
        Operation::ShiftLeft => "<<=",
        Operation::ShiftRight => ">>=",
        Operation::ShiftRightSigned => "s>>=",
        Operation::Modulo => "%=",
        Operation::SignedModulo => "s%=",
        Operation::Move => "=",
    }
}

fn comparison_text(comparison: Comparison) -> &'static str
    ensures text { result.now ≡ spelling (Compare comparison) }
    ensures short { length result.now ≤ 4 }
{
    match comparison {
        Comparison::Equal => "==",
        Comparison::Greater => ">",
        Comparison::GreaterOrEqual => ">=",
        Comparison::BitTest => "&",
        Comparison::NotEqual => "!=",
        Comparison::SignedGreater => "s>",
        Comparison::SignedGreaterOrEqual => "s>=",
        Comparison::Less => "<",
        Comparison::LessOrEqual => "<=",
        Comparison::SignedLess => "s<",
        Comparison::SignedLessOrEqual => "s<=",
    }
}

/// The first of the symbols with which the text begins.
#[tactic(auto, using(crate::proofs::Search::first_here, crate::proofs::Search::first_later, crate::proofs::Search::first_none))]
fn first_of(symbols: &[Symbol], text: &[u8]) -> Option<Symbol>
    ensures { result ≡ first_of symbols.now text.now }
{
    for &symbol in symbols {
        if text.starts_with(symbol.text().as_bytes()) {
            return Some(symbol);
        }
    }
    None
}

/// One symbol where `=` follows the first byte, another one where it doesn't.
#[inline(always)]
fn by_equals(text: &[u8], with: Symbol, without: Option<Symbol>) -> Option<Symbol>
    ensures { result ≡ (if nat_eq (get_or text.now 1 0) 61 then Some with else without) }
{
    match text {
        [_, b'=', ..] => Some(with),
        _ => without,
    }
}

/// An assignment where `=` follows the first byte, a symbol of that byte alone where it doesn't.
#[inline(always)]
fn assigned(text: &[u8], operation: Operation, alone: Option<Symbol>) -> Option<Symbol>
    ensures { result
        ≡ (if nat_eq (get_or text.now 1 0) 61 then Some (Assign operation) else alone) }
{
    by_equals(text, Symbol::Assign(operation), alone)
}

/// The longest symbol with which the text begins.
#[inline(always)]
pub(crate) fn symbol_at(text: &[u8]) -> Option<Symbol>
    ensures { result ≡ symbol_at text.now }
{
    match text {
        [b's', ..] => first_of(&SIGNED, text),
        [b'<', ..] => first_of(&LESS, text),
        [b'>', ..] => first_of(&GREATER, text),
        [b'=', ..] => by_equals(
            text,
            Symbol::Compare(Comparison::Equal),
            Some(Symbol::Assign(Operation::Move)),
        ),
        [b'+', ..] => assigned(text, Operation::Add, Some(Symbol::Plus)),
        [b'-', ..] => assigned(text, Operation::Subtract, Some(Symbol::Minus)),
        [b'*', ..] => assigned(text, Operation::Multiply, Some(Symbol::Star)),
        [b'&', ..] => assigned(
            text,
            Operation::And,
            Some(Symbol::Compare(Comparison::BitTest)),
        ),
        [b'/', ..] => assigned(text, Operation::Divide, None),
        [b'%', ..] => assigned(text, Operation::Modulo, None),
        [b'|', ..] => assigned(text, Operation::Or, None),
        [b'^', ..] => assigned(text, Operation::Xor, None),
        [b'!', ..] => by_equals(text, Symbol::Compare(Comparison::NotEqual), None),
        [b'(', ..] => Some(Symbol::Opening),
        [b')', ..] => Some(Symbol::Closing),
        [b':', ..] => Some(Symbol::Colon),
        _ => None,
    }
}
