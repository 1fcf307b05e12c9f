ghost use Rattle.std.specs.Prelude.{◌≡◌, option_map};
ghost use Rattle.scx_asm_text.specs.Tokens.{lexemes};
ghost use Rattle.scx_asm_text.specs.Options.{either};
ghost use Rattle.scx_asm_text.specs.Names.{register_in};
ghost use Rattle.scx_asm_text.specs.declared.items.Statement.TheVariants.{Binary};
ghost use Rattle.scx_isa_semantics.specs.declared.operations.Operation.TheVariants.{Move};
ghost use Rattle.scx_asm_text.specs.Items.{Says, item_value, copy, negation, sign_extending_move, load_line, load_immediate, byte_swap, map_load, special, behind_equals_no_word, behind_equals, arithmetic, behind_register, store_line, comparison, condition, jump_to, helper_call, keyword, statement_of, item_of, end, same};

use crate::items::{Item, Jump, Literal, Statement, WrittenOperand};
use crate::lexer::Token;
use crate::operands::{
    Read, behind_closing, read_access, read_comparison, read_given, read_goto, read_literal,
    read_memory_operand, read_operand, read_register, read_target, read_word,
};
use crate::symbols::Symbol;
use crate::words::{extension_of, is_word, order_named, register_in, register_named, stored_size};
use scx_isa_semantics::{Operation, Register, Width};

/// The item, if no token remains after it.
fn end<'a>(tokens: &[Token<'_>], item: Item<'a>) -> Option<Item<'a>>
    ensures { option_map item_value result ≡ end (lexemes tokens.now) (item_value item.entry) }
{
    match tokens {
        [] => Some(item),
        _ => None,
    }
}

fn says<'a>(statement: Statement, tokens: &[Token<'a>]) -> Option<Item<'a>>
    ensures { option_map item_value result ≡ end (lexemes tokens.now) (Says statement) }
{
    end(tokens, Item::Statement(statement))
}

fn same(left: Register, right: Register) -> bool
    ensures { result ≡ same left right }
{
    left.number() == right.number()
}

/// `rD = -rD`.
fn negation<'a>(
    width: Width,
    register: Register,
    name: &[u8],
    tokens: &[Token<'a>],
) -> Option<Item<'a>>
    ensures { option_map item_value result ≡ negation width register name.now (lexemes tokens.now) }
{
    if same(register_in(width, name)?, register) {
        says(Statement::Negate(width, register), tokens)
    } else {
        None
    }
}

/// `rD = (s8)rS`, after the parenthesis.
fn sign_extending_move<'a>(
    width: Width,
    register: Register,
    tokens: &[Token<'a>],
) -> Option<Item<'a>>
    ensures { option_map item_value result
        ≡ sign_extending_move width register (lexemes tokens.now) }
{
    let (access, rest) = read_access(tokens)?;
    let extension = extension_of(width, access)?;
    let (source, rest) = read_register(width, behind_closing(rest)?)?;
    says(Statement::SignExtend(extension, register, source), rest)
}

/// `rD = *(u8 *)(rS + O)`, after the star.
fn load_line<'a>(width: Width, register: Register, tokens: &[Token<'a>]) -> Option<Item<'a>>
    ensures { option_map item_value result ≡ load_line width register (lexemes tokens.now) }
{
    match width {
        Width::Bits32 => None,
        Width::Bits64 => {
            let (memory, rest) = read_memory_operand(tokens)?;
            let load = Statement::Load(memory.access, register, memory.base, memory.offset);
            says(load, rest)
        }
    }
}

/// `rD = N` and `rD = N ll`.
fn load_immediate<'a>(
    width: Width,
    register: Register,
    number: Literal,
    tokens: &[Token<'a>],
) -> Option<Item<'a>>
    ensures { option_map item_value result
        ≡ load_immediate width register number (lexemes tokens.now) }
{
    match (width, tokens) {
        (Width::Bits64, [Token::Word(name), rest @ ..]) => {
            if is_word(name, "ll") {
                says(Statement::LoadImmediate(register, number), rest)
            } else {
                None
            }
        }
        _ => moved(width, register, WrittenOperand::Number(number), tokens),
    }
}

fn moved<'a>(
    width: Width,
    register: Register,
    argument: WrittenOperand,
    tokens: &[Token<'a>],
) -> Option<Item<'a>>
    ensures { option_map item_value result
        ≡ end (lexemes tokens.now) (Says (Binary width Move register argument)) }
{
    let statement = Statement::Binary(width, Operation::Move, register, argument);
    says(statement, tokens)
}

/// `rD = le16 rD`.
fn byte_swapped<'a>(register: Register, name: &[u8], tokens: &[Token<'a>]) -> Option<Item<'a>>
    ensures { option_map item_value result ≡ byte_swap register name.now (lexemes tokens.now) }
{
    let (order, width) = order_named(name)?;
    let (source, rest) = read_register(Width::Bits64, tokens)?;
    if same(source, register) {
        says(Statement::ByteSwap(order, width, register), rest)
    } else {
        None
    }
}

/// `rD = map N`.
fn map_load<'a>(register: Register, tokens: &[Token<'a>]) -> Option<Item<'a>>
    ensures { option_map item_value result ≡ map_load register (lexemes tokens.now) }
{
    let (map, rest) = read_literal(tokens)?;
    says(Statement::LoadMapReference(register, map), rest)
}

/// A word after `rD =` that names no register of that width.
fn special<'a>(
    width: Width,
    register: Register,
    name: &[u8],
    tokens: &[Token<'a>],
) -> Option<Item<'a>>
    ensures { option_map item_value result ≡ special width register name.now (lexemes tokens.now) }
{
    match width {
        Width::Bits32 => None,
        Width::Bits64 => {
            if is_word(name, "map") {
                map_load(register, tokens)
            } else {
                byte_swapped(register, name, tokens)
            }
        }
    }
}

/// A word after `rD =`.
fn named<'a>(
    width: Width,
    register: Register,
    name: &[u8],
    tokens: &[Token<'a>],
) -> Option<Item<'a>>
    ensures { option_map item_value result
        ≡ either (register_in width name.now) (λ r. copy width register r (lexemes tokens.now))
        (special width register name.now (lexemes tokens.now)) }
{
    match register_in(width, name) {
        Some(source) => moved(width, register, WrittenOperand::Register(source), tokens),
        None => special(width, register, name, tokens),
    }
}

/// The right side of `rD =`.
fn behind_equals<'a>(width: Width, register: Register, tokens: &[Token<'a>]) -> Option<Item<'a>>
    ensures { option_map item_value result ≡ behind_equals width register (lexemes tokens.now) }
{
    match tokens {
        [Token::Word(name), rest @ ..] => named(width, register, name, rest),
        _ => behind_equals_no_word(width, register, tokens),
    }
}

/// The right side of `rD =`, if it is no word.
fn behind_equals_no_word<'a>(
    width: Width,
    register: Register,
    tokens: &[Token<'a>],
) -> Option<Item<'a>>
    ensures { option_map item_value result
        ≡ behind_equals_no_word width register (lexemes tokens.now) }
{
    match tokens {
        [Token::Mark(Symbol::Minus), Token::Word(name), rest @ ..] => negation(
            width, register, name, rest,
        ),
        [Token::Mark(Symbol::Opening), rest @ ..] => sign_extending_move(width, register, rest),
        [Token::Mark(Symbol::Star), rest @ ..] => load_line(width, register, rest),
        _ => {
            let (number, rest) = read_literal(tokens)?;
            load_immediate(width, register, number, rest)
        }
    }
}

fn arithmetic<'a>(
    width: Width,
    operation: Operation,
    register: Register,
    tokens: &[Token<'a>],
) -> Option<Item<'a>>
    ensures { option_map item_value result
        ≡ arithmetic width operation register (lexemes tokens.now) }
{
    let (argument, rest) = read_operand(width, tokens)?;
    says(
        Statement::Binary(width, operation, register, argument),
        rest,
    )
}

/// The rest of a line that begins with a register.
fn behind_register<'a>(width: Width, register: Register, tokens: &[Token<'a>]) -> Option<Item<'a>>
    ensures { option_map item_value result ≡ behind_register width register (lexemes tokens.now) }
{
    match tokens {
        [Token::Mark(Symbol::Assign(Operation::Move)), rest @ ..] => behind_equals(
            width, register, rest,
        ),
        [Token::Mark(Symbol::Assign(operation)), rest @ ..] => {
            arithmetic(width, *operation, register, rest)
        }
        _ => None,
    }
}

/// `*(u8 *)(rD + O) = rS`, after the star.
fn store_line<'a>(tokens: &[Token<'a>]) -> Option<Item<'a>>
    ensures { option_map item_value result ≡ store_line (lexemes tokens.now) }
{
    let (memory, rest) = read_memory_operand(tokens)?;
    let size = stored_size(memory.access)?;
    let (argument, rest) = read_given(rest)?;
    let store = Statement::Store(size, memory.base, memory.offset, argument);
    says(store, rest)
}

/// The comparison of a register, after its name.
fn comparison<'t, 'a>(
    width: Width,
    register: Register,
    tokens: &'t [Token<'a>],
) -> Read<'t, 'a, Jump>
    ensures { option_map (λ x. (x.0, lexemes x.1.now)) result
        ≡ comparison width register (lexemes tokens.now) }
{
    let (comparison, rest) = read_comparison(tokens)?;
    let (argument, rest) = read_operand(width, rest)?;
    Some((Jump::If(width, comparison, register, argument), rest))
}

/// `if rD C rS goto T`, after the `if`.
fn condition<'a>(tokens: &[Token<'a>]) -> Option<Item<'a>>
    ensures { option_map item_value result ≡ condition (lexemes tokens.now) }
{
    let (name, rest) = read_word(tokens)?;
    let (width, register) = register_named(name)?;
    let (jump, rest) = comparison(width, register, rest)?;
    let (target, rest) = read_goto(rest)?;
    end(rest, Item::Jump(jump, target))
}

fn jump_to<'a>(jump: Jump, tokens: &[Token<'a>]) -> Option<Item<'a>>
    ensures { option_map item_value result ≡ jump_to jump (lexemes tokens.now) }
{
    let (target, rest) = read_target(tokens)?;
    end(rest, Item::Jump(jump, target))
}

fn helper_call<'a>(tokens: &[Token<'a>]) -> Option<Item<'a>>
    ensures { option_map item_value result ≡ helper_call (lexemes tokens.now) }
{
    let (helper, rest) = read_literal(tokens)?;
    says(Statement::Call(helper), rest)
}

/// A line that begins with another word than a register.
fn keyword<'a>(name: &[u8], tokens: &[Token<'a>]) -> Option<Item<'a>>
    ensures { option_map item_value result ≡ keyword name.now (lexemes tokens.now) }
{
    if is_word(name, "if") {
        condition(tokens)
    } else if is_word(name, "goto") {
        jump_to(Jump::Goto, tokens)
    } else if is_word(name, "gotol") {
        jump_to(Jump::GotoLong, tokens)
    } else if is_word(name, "call") {
        helper_call(tokens)
    } else if is_word(name, "exit") {
        says(Statement::Exit, tokens)
    } else {
        None
    }
}

fn statement_of<'a>(name: &[u8], tokens: &[Token<'a>]) -> Option<Item<'a>>
    ensures { option_map item_value result ≡ statement_of name.now (lexemes tokens.now) }
{
    match register_named(name) {
        Some((width, register)) => behind_register(width, register, tokens),
        None => keyword(name, tokens),
    }
}

/// The item of the line with these tokens; `None` if it isn't of the language.
#[inline(always)]
pub fn item_of<'a>(tokens: &[Token<'a>]) -> Option<Item<'a>>
    ensures { option_map item_value result ≡ item_of (lexemes tokens.now) }
{
    match tokens {
        [] => Some(Item::Blank),
        [Token::Word(label), Token::Mark(Symbol::Colon), rest @ ..] => end(
            rest,
            Item::Label(label),
        ),
        [Token::Word(name), rest @ ..] => statement_of(name, rest),
        [Token::Mark(Symbol::Star), rest @ ..] => store_line(rest),
        _ => None,
    }
}
