ghost use Rattle.std.specs.Prelude.{◌≡◌, List, map};
ghost use Rattle.std.specs.Option.{option_map};
ghost use Rattle.dip_rule.specs.Stated.{Answers, StatedRule, down_by, entry_place, rule_of};
ghost use Rattle.dip_rule.specs.Stated.{stated_rule, up_by};
ghost use Rattle.dip_rule.specs.Stated as spec;

use crate::{Rule, RuleFault};
use dip_lists::Items;
use dip_sets::Name;
use tl_params::{Args, DownPort, Template, UpPort};

/// The rule of a kind of nodes.
#[derive(Drop)]
pub struct RuleEntry {
    pub kind: Name,
    /// What is built for a node of this kind.
    pub template: Template,
    pub rule: Box<dyn Rule>,
}

/// Entries in order.
pub type RuleEntries = Items<RuleEntry>;

/// The rules of kinds: the first entry of a kind decides. Contracts speak of what they state,
/// `Stating::stated`.
#[derive(Drop)]
pub struct Rules {
    pub entries: RuleEntries,
}

/// What is stated, for clauses to name.
pub trait Stating {
    ghost stated: { Self → List StatedRule };
}

impl Stating for Rules {
    ghost stated = { λ rules. map (λ e. stated_rule e.kind e.template
        ((Rule-box e.rule).says_down e.rule.value) ((Rule-box e.rule).says_up e.rule.value)) rules.entries };
}

impl RuleEntry {
    fn ask_down(&self, args: &Args, ins: &[DownPort]) -> Result<DownPort, RuleFault>
        ensures { Answers (says_down self.now.rule args.now ins.now) result }
    {
        self.rule.down(args, ins)
    }

    fn ask_up(&self, args: &Args, outs: &[UpPort]) -> Result<UpPort, RuleFault>
        ensures { Answers (says_up self.now.rule args.now outs.now) result }
    {
        self.rule.up(args, outs)
    }
}

impl Rules {
    /// The place of the first entry of a kind; `None` exactly where there is none.
    pub fn find(&self, kind: &Name) -> Option<usize>
        ensures { result ≡ entry_place (⟦<Rules as Stating>⟧.stated self.now) kind.now }
    {
        for (place, entry) in self.entries.as_slice().iter().enumerate() {
            if entry.kind.bytes() == kind.bytes() {
                return Some(place);
            }
        }
        None
    }

    // The first entry of a kind.
    fn entry_of(&self, kind: &Name) -> Option<&RuleEntry>
        ensures { option_map (λ b. stated_rule b.now.kind b.now.template (says_down b.now.rule)
            (says_up b.now.rule)) result ≡ rule_of (⟦<Rules as Stating>⟧.stated self.now) kind.now }
    {
        for entry in self.entries.as_slice() {
            if entry.kind.bytes() == kind.bytes() {
                return Some(entry);
            }
        }
        None
    }

    /// What is built for the nodes of a kind; `None` exactly where it has no entry.
    pub fn template_of(&self, kind: &Name) -> Option<Template>
        ensures { result ≡ spec.template_of (⟦<Rules as Stating>⟧.stated self.now) kind.now }
    {
        match self.entry_of(kind) {
            Some(entry) => Some(entry.template),
            None => None,
        }
    }

    /// Whether all in ports and out ports of a node belong together, by the kind whose rule makes them; false
    /// where there is no such kind, or it has no entry.
    pub fn is_nexus_kind(&self, kind: Option<&Name>) -> bool
        ensures { result ≡ spec.is_nexus_kind (⟦<Rules as Stating>⟧.stated self.now)
            (option_map (λ name. name.now) kind.entry) }
    {
        let Some(kind) = kind else {
            return false;
        };
        match self.template_of(kind) {
            Some(template) => template.is_nexus(),
            None => false,
        }
    }

    /// What the first entry of a kind answers down; a refusal with 0 where there is none.
    pub fn ask_down(
        &self,
        kind: &Name,
        args: &Args,
        ins: &[DownPort],
    ) -> Result<DownPort, RuleFault>
        ensures { Answers (down_by (rule_of (⟦<Rules as Stating>⟧.stated self.now) kind.now) args.now
            ins.now) result }
    {
        match self.entry_of(kind) {
            Some(entry) => entry.ask_down(args, ins),
            None => Err(RuleFault::Refused(0)),
        }
    }

    /// What the first entry of a kind answers up; a refusal with 0 where there is none.
    pub fn ask_up(&self, kind: &Name, args: &Args, outs: &[UpPort]) -> Result<UpPort, RuleFault>
        ensures { Answers (up_by (rule_of (⟦<Rules as Stating>⟧.stated self.now) kind.now) args.now
            outs.now) result }
    {
        match self.entry_of(kind) {
            Some(entry) => entry.ask_up(args, outs),
            None => Err(RuleFault::Refused(0)),
        }
    }
}
