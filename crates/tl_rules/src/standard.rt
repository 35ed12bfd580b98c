ghost use Rattle.std.specs.Prelude.{◌≡◌, ◌++◌, [], ◌∷◌, map, IfOk, OnOk, IsTrue};
ghost use Rattle.dip_rule.specs.Stated.{stated_rule};
ghost use Rattle.dip_sets.specs.Names.{is_name};
ghost use Rattle.tl_rules.specs.Standard.{kinds_by, sides};

use dip_lists::{Items, Memory};
use dip_rule::{Rule, RuleEntries, RuleEntry, Rules, Stating};
use dip_sets::Name;
use std::alloc::Global;
use tl_params::Template;

// The name of a kind.
fn kind_name(alloc: Global, text: &str) -> Result<Name, Memory>
    requires { IsTrue (is_name text.now) }
    ensures { IfOk result (λ name. name ≡ text.now) }
{
    match Name::new(alloc, text)? {
        Some(name) => Ok(name),
        None => Err(Memory),
    }
}

// Adds the rule of a kind behind those that are there.
fn add_rule(
    alloc: Global,
    entries: &mut RuleEntries,
    kind: &str,
    template: Template,
    rule: Box<dyn Rule>,
) -> Result<(), Memory>
    requires { IsTrue (is_name kind.now) }
    ensures { OnOk result (map (λ e. stated_rule e.kind e.template (says_down e.rule) (says_up e.rule))
        entries.new ≡ map (λ e. stated_rule e.kind e.template (says_down e.rule) (says_up e.rule)) entries.old
        ++ stated_rule kind.now template (says_down rule) (says_up rule) ∷ []) }
{
    let kind = kind_name(alloc, kind)?;
    entries.push(RuleEntry {
        kind,
        template,
        rule,
    })
}

/// The rules of the standard kinds `buffer`, `width`, `fragmenter`, `shrinker` and `xbar`, each with its own
/// template, made of a rule for each.
///
/// The caller boxes them, as `buffer_rule` and its like give them.
pub fn standard_rules(
    alloc: Global,
    buffer: Box<dyn Rule>,
    width: Box<dyn Rule>,
    fragmenter: Box<dyn Rule>,
    shrinker: Box<dyn Rule>,
    xbar: Box<dyn Rule>,
) -> Result<Rules, Memory>
    ensures { IfOk result (λ rules. ⟦<Rules as Stating>⟧.stated rules ≡
        kinds_by (sides (says_down buffer) (says_up buffer))
        (sides (says_down width) (says_up width)) (sides (says_down fragmenter) (says_up fragmenter))
        (sides (says_down shrinker) (says_up shrinker)) (sides (says_down xbar) (says_up xbar))) }
{
    let mut entries = Items::new(alloc);
    add_rule(alloc, &mut entries, "buffer", Template::Buffer, buffer)?;
    add_rule(alloc, &mut entries, "width", Template::Width, width)?;
    add_rule(
        alloc,
        &mut entries,
        "fragmenter",
        Template::Fragmenter,
        fragmenter,
    )?;
    add_rule(
        alloc,
        &mut entries,
        "shrinker",
        Template::Shrinker,
        shrinker,
    )?;
    add_rule(alloc, &mut entries, "xbar", Template::Xbar, xbar)?;
    Ok(Rules { entries })
}

/// The standard rules, boxed where this stands: no function may hand out a box that it made. It wants an
/// expression for the memory, and a function around it that may answer `Memory` by `?`.
#[macro_export]
macro_rules! boxed_standard_rules {
    ($alloc:expr) => {{
        let alloc = $alloc;
        let buffer: Box<dyn $crate::Rule> = $crate::buffer_rule(alloc)?;
        let width: Box<dyn $crate::Rule> = $crate::width_rule(alloc)?;
        let fragmenter: Box<dyn $crate::Rule> = $crate::fragmenter_rule(alloc)?;
        let shrinker: Box<dyn $crate::Rule> = $crate::shrinker_rule(alloc)?;
        let xbar: Box<dyn $crate::Rule> = $crate::xbar_rule(alloc)?;
        $crate::standard_rules(alloc, buffer, width, fragmenter, shrinker, xbar)?
    }};
}
