use crate::sheets::Sheet;

/// The least length that is written in seconds.
const LONG: u64 = 10_000;

/// Adds a time, in milliseconds, or in seconds if it is long.
pub fn put_time(sheet: &mut Sheet, ms: u64) {
    if ms >= LONG {
        put_seconds(sheet, ms);
        sheet.put(" s");
    } else {
        sheet.number(ms);
        sheet.put(" ms");
    }
}

/// Adds milliseconds as seconds, without zeros at the end.
pub fn put_seconds(sheet: &mut Sheet, ms: u64) {
    sheet.number(ms / 1000);
    let rest = ms % 1000;
    if rest == 0 {
        return;
    }
    sheet.put_number(".", rest / 100);
    if rest % 100 > 0 {
        sheet.number(rest / 10 % 10);
    }
    if rest % 10 > 0 {
        sheet.number(rest % 10);
    }
}
