//! The lines of components, variables and rules, which draw nothing.

ghost use Rattle.std.specs.Prelude.{◌≡◌, ◌++◌, map, OnOk};
ghost use Rattle.std.specs.String.{string_bytes};
ghost use Rattle.trial_maker.specs.Documents.{ended, text_of};
ghost use Rattle.trial_maker.specs.PlantLines.{component_line, variable_line, rule_line, line_of, plant_lines};

use crate::chains::Link;
use std::alloc::AllocError;

#[tactic(auto, unfolding(crate::specs::PlantLines::component_line))]
fn push_component(out: &mut String, link: Link) -> Result<(), AllocError>
    ensures { OnOk result (string_bytes out.new
        ≡ string_bytes out.old ++ ended (component_line link)) }
{
    writeln!(out, "component c{link}=a,b,c,x start a")
}

#[tactic(auto, unfolding(crate::specs::PlantLines::variable_line))]
fn push_variable(out: &mut String, link: Link) -> Result<(), AllocError>
    ensures { OnOk result (string_bytes out.new
        ≡ string_bytes out.old ++ ended (variable_line link)) }
{
    writeln!(out, "var s{link}=ok,off sensed")
}

#[tactic(auto, unfolding(crate::specs::PlantLines::rule_line))]
fn push_rule(out: &mut String, link: Link) -> Result<(), AllocError>
    ensures { OnOk result (string_bytes out.new ≡ string_bytes out.old ++ ended (rule_line link)) }
{
    writeln!(out, "rule s{link}=off iff c{link}=x")
}

/// What a line of the plant declares of a component.
#[derive(Clone, Copy)]
pub enum Declared {
    Component,
    Variable,
    Rule,
}

fn push_line(out: &mut String, declared: Declared, link: Link) -> Result<(), AllocError>
    ensures { OnOk result (string_bytes out.new
        ≡ string_bytes out.old ++ ended (line_of declared link)) }
{
    match declared {
        Declared::Component => push_component(out, link),
        Declared::Variable => push_variable(out, link),
        Declared::Rule => push_rule(out, link),
    }
}

#[tactic(auto, using(crate::proofs::LinesSoFar::line_more))]
fn push_lines(out: &mut String, declared: Declared, links: &[Link]) -> Result<(), AllocError>
    ensures { OnOk result (string_bytes out.new
        ≡ string_bytes out.old ++ text_of (map (line_of declared) links.now)) }
{
    for link in links {
        push_line(out, declared, *link)?;
    }
    Ok(())
}

/// The first line, and then all components, all variables and all rules.
#[tactic(auto, unfolding(crate::specs::PlantLines::plant_lines))]
pub fn push_plant(out: &mut String, links: &[Link]) -> Result<(), AllocError>
    ensures { OnOk result (string_bytes out.new
        ≡ string_bytes out.old ++ text_of (plant_lines links.now)) }
{
    out.push_str("titan 1\n")?;
    push_lines(out, Declared::Component, links)?;
    push_lines(out, Declared::Variable, links)?;
    push_lines(out, Declared::Rule, links)
}
