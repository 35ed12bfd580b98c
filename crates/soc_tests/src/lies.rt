use crate::answers::{Answer, map_by};
use crate::narrow::Narrow;
use crate::rules::{Fixed, fixed_rule};
use dip_lists::{Items, Memory};
use dip_rule::{Rule, RuleEntry, Rules};
use dip_sets::Name;
use std::alloc::Global;
use tl_params::Template;
use tl_rules::boxed_standard_rules;

// What is built for the kind `given`.
fn template_named(name: &str) -> Template {
    match name {
        "xbar" => Template::Xbar,
        _ => Template::Buffer,
    }
}

// Adds a rule of a kind.
fn add_rule(
    alloc: Global,
    rules: &mut Rules,
    kind: &str,
    template: Template,
    rule: Box<dyn Rule>,
) -> Result<(), Memory> {
    let Some(kind) = Name::new(alloc, kind)? else {
        return Err(Memory);
    };
    rules.entries.push(RuleEntry {
        kind,
        template,
        rule,
    })
}

// The answer to `map` by the standard rules and this one behind them.
fn answer_by(
    alloc: Global,
    file: &[u8],
    template: Template,
    fixed: Fixed,
) -> Result<Answer, Memory> {
    let rule: Box<dyn Rule> = Box::new(alloc, fixed)?;
    let mut rules = boxed_standard_rules!(alloc);
    add_rule(alloc, &mut rules, "given", template, rule)?;
    map_by(alloc, file, &rules)
}

/// The answer by the standard rules and one of the kind `given`: `TEMPLATE DOWN UP`.
pub fn map_by_given(alloc: Global, file: &[u8], argument: &str) -> Result<Answer, Memory> {
    let (template, ports) = argument.split_once(' ').unwrap_or((argument, ""));
    let (down, up) = ports.split_once(' ').unwrap_or((ports, ""));
    let fixed = fixed_rule(alloc, down, up)?;
    answer_by(alloc, file, template_named(template), fixed)
}

/// The answer by one rule alone, of the kind `narrow`.
pub fn map_by_narrow(alloc: Global, file: &[u8]) -> Result<Answer, Memory> {
    let rule: Box<dyn Rule> = Box::new(alloc, Narrow { alloc })?;
    let mut rules = Rules {
        entries: Items::new(alloc),
    };
    add_rule(alloc, &mut rules, "narrow", Template::Buffer, rule)?;
    map_by(alloc, file, &rules)
}
