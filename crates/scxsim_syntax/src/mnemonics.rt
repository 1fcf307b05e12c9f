/// The form that does what a mnemonic of another assembly language does, and a verb.
pub(crate) fn form_of(word: &str) -> Option<&'static str> {
    let name = without_width(word);
    for (names, form) in FORMS {
        if names.iter().any(|other| *other == name) {
            return Some(form);
        }
    }
    None
}

/// The name without the number of its bits.
fn without_width(word: &str) -> &str {
    for width in ["64", "32", "16", "8"] {
        if let Some(name) = word.strip_suffix(width) {
            return name;
        }
    }
    word
}

const FORMS: [(&[&str], &str); 18] = [
    (&["mov", "MOV", "li", "movl", "movq"], "r1 = r2 moves"),
    (&["add", "ADD", "addi", "inc"], "r1 += r2 adds"),
    (&["sub", "SUB", "dec"], "r1 -= r2 subtracts"),
    (&["mul", "MUL", "imul"], "r1 *= r2 multiplies"),
    (&["div", "DIV"], "r1 /= r2 divides"),
    (&["mod", "MOD", "rem"], "r1 %= r2 is the remainder"),
    (&["and", "AND"], "r1 &= r2 is the and of bits"),
    (&["or", "OR"], "r1 |= r2 is the or of bits"),
    (&["xor", "XOR"], "r1 ^= r2 is the exclusive or of bits"),
    (&["lsh", "LSH", "shl"], "r1 <<= r2 shifts to the left"),
    (&["rsh", "RSH", "shr"], "r1 >>= r2 shifts to the right"),
    (
        &["arsh", "ARSH", "sar"],
        "r1 s>>= r2 shifts a signed number to the right",
    ),
    (&["neg", "NEG"], "r1 = -r1 negates"),
    (
        &["ld", "ldx", "ldxw", "ldxh", "ldxb", "ldxdw", "load", "LDX"],
        "r1 = *(u64 *)(r2 + 0) loads",
    ),
    (
        &[
            "st", "stx", "stxw", "stxh", "stxb", "stxdw", "stw", "stdw", "store", "STX",
        ],
        "*(u64 *)(r1 + 0) = r2 stores",
    ),
    (&["lddw", "LDDW", "ld_imm"], "r1 = 5 ll loads 64 bits"),
    (&["ja", "jmp", "JA", "b", "br", "jump"], "goto end jumps"),
    (
        &[
            "jeq", "jne", "jgt", "jge", "jlt", "jle", "jset", "jsgt", "jsge", "jslt", "jsle",
            "JEQ", "JNE",
        ],
        "if r1 == r2 goto end jumps",
    ),
];
