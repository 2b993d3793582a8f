// The phases of a phased tariff by value, and the descriptor that lends them.
#![tactic(auto)]

ghost use Rattle.std.specs.Prelude.{◌≡◌};
ghost use Rattle.grammar.specs.Meaning.{descriptor};
ghost use Rattle.line.specs.Lines.{meant_by};
ghost use Rattle.phase_lists.specs.Lists.{lists_in};
ghost use Rattle.phases.specs.Holding.{none_held, with_phase, holding, lists_of_phases};

use descriptor::{BurstPart, Descriptor, TariffPart};
use notes::Values;
use phase_lists::PhaseLists;
use tariff::Phase;

// The numbers of the first nine phases, by name.
// Stays: seven lists and no list of phases, since a descriptor lends seven. They stand here by name, and in outcomes by
// slot: one function that lends either needs an index in both, which would lose the names here.
#[derive(Clone, Copy, Default)]
pub struct Phases {
    pub pri: Values,
    pub pcx: Values,
    pub repx: Values,
    pub pcn: Values,
    pub repn: Values,
    pub ci: Values,
    pub pd: Values,
}

impl Phases {
    // None yet.
    pub fn new() -> Phases
        ensures { result ≡ none_held }
    {
        Phases::default()
    }

    // With one more phase, where fewer than nine are held.
    pub fn with(mut self, p: Phase) -> Phases
        ensures { result ≡ with_phase self p }
    {
        self.pri.push(p.pri);
        self.pcx.push(p.pcx);
        self.repx.push(p.repx);
        self.pcn.push(p.pcn);
        self.repn.push(p.repn);
        self.ci.push(p.ci);
        self.pd.push(p.pd);
        self
    }

    // The first nine phases of a list.
    #[tactic(auto, using(std::proofs::lemmas::List::Sums::fold_more))]
    pub fn of(list: &[Phase]) -> Phases
        ensures { result ≡ holding list.now }
    {
        let mut phases = Phases::new();
        for p in list {
            phases = phases.with(*p);
        }
        phases
    }

    // The seven lists, with the phases that are held.
    fn lists(&self) -> PhaseLists<'_>
        ensures { lists_in result ≡ lists_of_phases self.now }
    {
        PhaseLists {
            pri: self.pri.as_slice(),
            pcx: self.pcx.as_slice(),
            repx: self.repx.as_slice(),
            pcn: self.pcn.as_slice(),
            repn: self.repn.as_slice(),
            ci: self.ci.as_slice(),
            pd: self.pd.as_slice(),
        }
    }

    // A descriptor of these parts, with the phases that are held.
    pub fn descriptor(&self, tariff: TariffPart, burst: BurstPart) -> Descriptor<'_>
        ensures { meant_by result ≡ descriptor tariff (lists_of_phases self.now) burst }
    {
        Descriptor::Parts {
            tariff,
            lists: self.lists(),
            burst,
        }
    }
}
