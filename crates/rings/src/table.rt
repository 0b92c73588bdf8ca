// Table check: the first check of every call that takes a table.
ghost use Rattle.std.specs.Prelude.{◌≡◌, ◌+◌};
ghost use Rattle.rings.specs.Words.{tabulate};
ghost use Rattle.rings.specs.Table.{table_of, size, Split};
ghost use Rattle.rings.specs.Sound.{EqualColumns, NeverFall};
ghost use Rattle.rings.specs.Checks.{in_order};
ghost use Rattle.rings.specs.TableCheck.{row_faults, row_check, table_check};

use crate::limits::{LAST_ACCOUNT, LAST_DAY, ROWS};
use crate::refusal::Refusal;

// The faults of one row, in their order.
fn check_row(j: usize, before: u16, day: u16, a: u16, b: u16) -> Result<(), Refusal>
    ensures { result ≡ row_faults j before day a b }
{
    if day < 1 {
        return Err(Refusal::BadDay(j));
    }
    if LAST_DAY < day {
        return Err(Refusal::BadDay(j));
    }
    if LAST_ACCOUNT < b {
        return Err(Refusal::BadAccounts(j));
    }
    if b <= a {
        return Err(Refusal::BadAccounts(j));
    }
    if day < before {
        return Err(Refusal::DayFalls(j));
    }
    Ok(())
}

// The lowest faulty row decides.
fn check_rows(days: &[u16], first: &[u16], second: &[u16]) -> Result<(), Refusal>
    requires { EqualColumns days.now first.now second.now }
    ensures { let t = table_of days.now first.now second.now in
        result ≡ in_order (tabulate (row_check t) 0 (size t)) }
{
    let mut before: u16 = 0;
    for j in 0..days.len() {
        let day = days[j];
        check_row(j, before, day, first[j], second[j])?;
        before = day;
    }
    Ok(())
}

pub fn check_table(days: &[u16], first: &[u16], second: &[u16]) -> Result<(), Refusal>
    ensures { result ≡ table_check (table_of days.now first.now second.now) }
{
    if first.len() != days.len() {
        return Err(Refusal::ColumnsDiffer);
    }
    if second.len() != days.len() {
        return Err(Refusal::ColumnsDiffer);
    }
    if ROWS < days.len() {
        return Err(Refusal::TooLarge);
    }
    check_rows(days, first, second)
}

// How many rows are dated before a day, in a table whose days never fall.
pub fn rows_before(days: &[u16], day: u16) -> usize
    requires { NeverFall days.now }
    ensures { Split days.now day result }
{
    days.partition_point(|&d| d < day)
}

// The rows before the day after s, from the rows before s on: so few that a search by halves costs more.
pub fn rows_through(days: &[u16], s: u16, lo: usize) -> usize
    requires never_fall { NeverFall days.now }
    requires split { Split days.now s lo }
    ensures { Split days.now (s + 1) result }
{
    for r in lo..days.len() {
        if s < days[r] {
            return r;
        }
    }
    days.len()
}
