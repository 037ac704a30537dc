// Rows that have a name. Each type says which of its fields that is.

ghost use Rattle.std.specs.Prelude.{◌≡◌};
ghost use Rattle.plan.specs.declared.rows.Name.{Name};

use plan::{Bin, Counter, Flow, Group, Item, Name, Test};

pub trait Named {
    ghost named: { Self → Name };

    fn name(&self) -> Name
        ensures { result ≡ named self.now };
}

impl Named for Group {
    ghost named = { λ row. row.name };

    fn name(&self) -> Name {
        self.name
    }
}

impl Named for Bin {
    ghost named = { λ row. row.name };

    fn name(&self) -> Name {
        self.name
    }
}

impl Named for Counter {
    ghost named = { λ row. row.name };

    fn name(&self) -> Name {
        self.name
    }
}

impl Named for Test {
    ghost named = { λ row. row.name };

    fn name(&self) -> Name {
        self.name
    }
}

impl Named for Flow {
    ghost named = { λ row. row.name };

    fn name(&self) -> Name {
        self.name
    }
}

impl Named for Item {
    ghost named = { λ row. row.name };

    fn name(&self) -> Name {
        self.name
    }
}
