// The values of a name, as far as they are kept.
ghost use Rattle.std.specs.Prelude.{◌≡◌, ◌≤◌, length};
ghost use Rattle.grammar.specs.Meaning.{first_or};
ghost use Rattle.notes.specs.Noting.{no_values, pushed};

use short_list::ShortList;
use std::marker::Model;

// The first nine values that a name has. Their place is fixed, so that no text fails for want of memory.
#[derive(Clone, Copy)]
pub struct Values {
    items: ShortList<9>,
}

impl Model for Values {
    ghost use Rattle.std.specs.Prelude.{ℕ, List};

    ghost Value = { List ℕ };

    ghost view = { λ v. v.items };

    ghost inverse = { λ l. record { items = l } };
}

impl Default for Values {
    ghost is_default = { λ v. v ≡ no_values };

    fn default() -> Self {
        Values {
            items: ShortList::new(),
        }
    }
}

impl Values {
    // One value more. Past nine it is left out.
    pub fn push(&mut self, v: u32)
        ensures { self.new ≡ pushed self.old v }
    {
        self.items.push(v);
    }

    // Those that are kept.
    pub fn as_slice(&self) -> &[u32]
        ensures value { result.now ≡ self.now }
        ensures fits { length result.now ≤ 9 }
    {
        self.items.as_slice()
    }

    // The first of them, or a default.
    pub fn first_or(&self, default: u32) -> u32
        ensures { result ≡ first_or default self.now }
    {
        self.as_slice().first().copied().unwrap_or(default)
    }
}
