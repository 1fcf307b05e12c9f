ghost use Rattle.std.specs.Prelude.{decimal};
ghost use Rattle.scxsim_output.specs.Texts.{Puts};
ghost use Rattle.scxsim_statistics.specs.Cells.{left, right, numbers_right, fraction, hundredths, hundredths_right};

use scxsim_output::Text;

/// Writes a number of hundredths, with a period before the last two digits.
#[tactic(auto, unfolding(crate::specs::Cells::hundredths))]
pub fn write_hundredths(number: u64, page: &mut Text)
    ensures { Puts page.old (hundredths number) page.new }
{
    page.number("", number / 100);
    write_fraction(number, page);
}

/// Writes a number of hundredths with spaces before it, up to `width` characters.
#[tactic(auto, unfolding(crate::specs::Cells::hundredths_right, crate::specs::Cells::right))]
pub fn write_hundredths_right(number: u64, width: usize, page: &mut Text)
    ensures { Puts page.old (hundredths_right width number) page.new }
{
    page.number_right(number / 100, width.saturating_sub(3));
    write_fraction(number, page);
}

/// Writes the last two digits of a number of hundredths, with a period before them.
#[tactic(auto, unfolding(crate::specs::Cells::fraction))]
fn write_fraction(number: u64, page: &mut Text)
    ensures { Puts page.old (fraction number) page.new }
{
    page.number(".", number / 10 % 10);
    page.number("", number % 10);
}

/// Writes numbers with spaces before them, nine characters each.
#[tactic(auto, unfolding(crate::specs::Cells::right, crate::specs::Cells::numbers_right), using(scxsim_output::proofs::Pieces::puts_next))]
pub fn write_numbers(numbers: &[u64], page: &mut Text)
    ensures { Puts page.old (numbers_right numbers.now) page.new }
{
    for place in 0..numbers.len() {
        page.number_right(numbers[place], 9);
    }
}

/// Writes words with spaces after them, up to `width` bytes.
#[tactic(auto, unfolding(crate::specs::Cells::left))]
pub fn write_left(words: &str, width: usize, page: &mut Text)
    ensures { Puts page.old (left width words.now) page.new }
{
    page.left(words, width);
}

/// Writes a number with spaces after it, up to `width` characters.
#[tactic(auto, unfolding(crate::specs::Cells::left))]
pub fn write_number_left(number: u64, width: usize, page: &mut Text)
    ensures { Puts page.old (left width (decimal number)) page.new }
{
    page.number_left(number, width);
}

/// Writes a number with spaces before it, up to `width` characters.
#[tactic(auto, unfolding(crate::specs::Cells::right))]
pub fn write_number_right(number: u64, width: usize, page: &mut Text)
    ensures { Puts page.old (right width (decimal number)) page.new }
{
    page.number_right(number, width);
}
