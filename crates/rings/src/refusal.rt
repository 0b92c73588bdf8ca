// Why a call refuses.
ghost use Rattle.std.specs.Prelude.{◌≡◌};
ghost use Rattle.rings.specs.Refusals.{number_of, rule_of};

// Why a call refuses: document 01's refusals, and 02's from 15 on, each with its place where it has one.
// specs/Refusals.antt gives number and place.
#[derive(Clone, Copy)]
pub enum Refusal {
    // 1: column lengths differ.
    ColumnsDiffer,
    // 2: over 16,384 rows.
    TooLarge,
    // 3: a day outside 1 to 1,024, at its row.
    BadDay(usize),
    // 4: accounts out of range or not rising, at their row.
    BadAccounts(usize),
    // 5: a day below the previous row's, at its row.
    DayFalls(usize),
    // 6: k outside 1 to 4,095.
    BadK,
    // 7: not a window, or not a range.
    BadRange,
    // 8: a lent buffer of the wrong length, or columns that differ in length.
    BadLength,
    // 9: too little scratch.
    Scratch,
    // 10: more entries than the columns hold.
    NoRoom,
    // 14: an entry of a minimal-window list, at its place from 0.
    BadEntry(usize),
    // 15: the named account is not in the window's ring.
    NotInRing,
}

// Where a refusal lies: at a row of the table, or at an entry of a minimal-window list, both counted from 0.
#[derive(Clone, Copy)]
pub enum Place {
    Row(usize),
    Entry(usize),
}

// Number and place of a refusal: a row for each, as in specs/Refusals.antt.
impl Refusal {
    // Its number: the C interface and the printed line have no word for it.
    #[tactic(auto, unfolding(crate::specs::Refusals::number_of))]
    pub fn number(self) -> u32
        ensures { result ≡ number_of self }
    {
        match self {
            Refusal::ColumnsDiffer => 1,
            Refusal::TooLarge => 2,
            Refusal::BadDay(_) => 3,
            Refusal::BadAccounts(_) => 4,
            Refusal::DayFalls(_) => 5,
            Refusal::BadK => 6,
            Refusal::BadRange => 7,
            Refusal::BadLength => 8,
            Refusal::Scratch => 9,
            Refusal::NoRoom => 10,
            Refusal::BadEntry(_) => 14,
            Refusal::NotInRing => 15,
        }
    }

    // Where it lies, if anywhere.
    pub fn place(self) -> Option<Place>
        ensures { result ≡ (rule_of self).place }
    {
        match self {
            Refusal::BadDay(j) | Refusal::BadAccounts(j) | Refusal::DayFalls(j) => {
                Some(Place::Row(j))
            }
            Refusal::BadEntry(entry) => Some(Place::Entry(entry)),
            _ => None,
        }
    }
}
