// The rows of a plan's tables. Rows of a table are numbered from 0, in the order of the text, over the whole plan.

ghost use Rattle.std.specs.Prelude.{◌≡◌};
ghost use Rattle.plan.specs.Meaning.{rows_of};

// A part of the plan text, by where it stands: a plan holds its own text, so a row cannot borrow from it.
#[derive(Clone, Copy)]
pub struct Name {
    pub place: usize,
    pub len: usize,
}

// The rows from `from` up to `to`, without it, of another table. All memory of a plan is asked for at once, so no row has a
// vector of its own.
#[derive(Clone, Copy)]
pub struct Span {
    pub from: usize,
    pub to: usize,
}

impl Span {
    // The rows of the span, as far as the table goes.
    pub fn of<T>(self, rows: &[T]) -> &[T]
        ensures { result.now ≡ rows_of self rows.now }
    {
        rows.get(self.from..self.to.min(rows.len()))
            .unwrap_or_default()
    }
}

// A result value from -32768 to 32767, held as the value and 32768 more: what the rules say of values, they say of natural
// numbers.
#[derive(Clone, Copy, PartialEq, Eq)]
pub struct Value {
    pub code: u16,
}

#[derive(Clone, Copy)]
pub struct Group {
    pub name: Name,
}

// A bin of a group: a leaf bin or not, its number in the group, and the bin that it stands below.
#[derive(Clone, Copy)]
pub struct Bin {
    pub name: Name,
    pub group: usize,
    pub leaf: bool,
    pub number: u32,
    pub parent: Option<usize>,
}

#[derive(Clone, Copy)]
pub struct Counter {
    pub name: Name,
}

#[derive(Clone, Copy)]
pub struct Test {
    pub name: Name,
}

// What an item runs.
#[derive(Clone, Copy)]
pub enum Runs {
    Test(usize),
    Flow(usize),
}

#[derive(Clone, Copy)]
pub enum Verdict {
    Unmarked,
    Pass,
    Fail,
}

// Where a clause leads: to an item, by its number in the whole plan, or out of the flow with a value.
#[derive(Clone, Copy)]
pub enum Next {
    GoTo(usize),
    Return(Value),
}

// What an item does at the values that the clause lists.
#[derive(Clone, Copy)]
pub struct Clause {
    pub values: Span,
    pub verdict: Verdict,
    pub counters: Span,
    pub leaf: Option<usize>,
    pub next: Next,
}

#[derive(Clone, Copy)]
pub struct Item {
    pub name: Name,
    pub runs: Runs,
    pub clauses: Span,
}

#[derive(Clone, Copy)]
pub struct Flow {
    pub name: Name,
    pub items: Span,
    pub depth: usize,
}

// How many rows of each kind a plan has.
#[derive(Clone, Copy, Debug, PartialEq, Eq)]
pub struct Sizes {
    pub groups: usize,
    pub bins: usize,
    pub counters: usize,
    pub tests: usize,
    pub flows: usize,
    pub items: usize,
}
