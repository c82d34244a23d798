//! The findings on a policy's aliases.
ghost use Rattle.std.specs.Prelude.{◌≡◌, ◌++◌, false, length, map, flat_map, not, option_copied, IfOk, OnOk};
ghost use Rattle.std.specs.List.{items_where_true};
ghost use Rattle.sudo_grammar.specs.declared.policy.Policy.{Policy};
ghost use Rattle.sudo_policy.specs.Definitions as policies;
ghost use Rattle.sudo_policy.specs.Definitions.{list_view};
ghost use Rattle.std.specs.Prelude.{◌∷◌, []};
ghost use Rattle.sudo_policy.specs.Found.{AreFindings, has_error};
ghost use Rattle.sudo_policy.specs.Found as found;
ghost use Rattle.sudo_policy.specs.Body.Judgement.{AreAliasMarks, found_in, atom_missing, missing_in};
ghost use Rattle.sudo_policy.specs.Body.Judgement as judgement;
ghost use Rattle.sudo_policy.specs.Body.DefinitionRef.{alias_view, granting_row, IsSurvey, LeadsInside};
ghost use Rattle.sudo_policy.specs.Body.Graph.{IsInside};
ghost use Rattle.sudo_policy.specs.Body.Positions.{IsIndex};
ghost use Rattle.sudo_policy.specs.Resolving.{IsSound};

use crate::cycle::cycles;
use crate::graph::{State, Visited, all_visited};
use crate::index::Index;
use crate::member::alias_name;
use crate::reach::reached;
use crate::survey::{DefinitionRef, MemberList, Survey, links, lists, roots, survey_policy};
use crate::{Class, Finding};
use std::alloc::{AllocError, Global};
use sudo_grammar::{Kind, Policy};
use sudo_text::{Place, Seq};

/// The findings on a policy, with the index of its definitions.
#[derive(Drop)]
pub(crate) struct Examination {
    pub(crate) findings: Vec<Finding>,
    pub(crate) index: Index,
}

// What the lists of a policy use: the numbers of the aliases that rules and bound `Defaults` lines name, and a finding for
// each use of an undefined name.
#[derive(Drop)]
struct Uses {
    roots: Vec<Option<usize>>,
    undefined: Vec<Finding>,
}

// For each alias in force, whether it is on a cycle, begins too long a chain, has too many members, or is unused.
#[derive(Drop)]
struct AliasMarks {
    cyclic: Vec<bool>,
    deep: Vec<bool>,
    wide: Vec<bool>,
    unused: Vec<bool>,
}

/// Returns the findings on a policy, those of visudo(8)'s strict mode and of the limits: class by class, each class in
/// the order of the loaded policy.
///
/// Returns `AllocError` if allocation fails.
pub fn findings(alloc: Global, policy: &Policy) -> Result<Vec<Finding>, AllocError>
    ensures { IfOk result (λ found. AreFindings policy.now found.items) }
{
    let Examination { findings, index: _ } = examine(alloc, policy)?;
    Ok(findings)
}

/// Returns the findings on a policy, with the index of its definitions.
pub(crate) fn examine(alloc: Global, policy: &Policy) -> Result<Examination, AllocError>
    ensures findings { IfOk result (λ examined. AreFindings policy.now examined.findings.items) }
    ensures index { IfOk result (λ examined. IsIndex policy.now examined.index) }
    ensures sound { IfOk result (λ examined. has_error examined.findings.items ≡ false
        → IsSound policy.now) }
{
    let survey = survey_policy(alloc, policy)?;
    let findings = findings_of(alloc, policy, &survey)?;
    Ok(Examination {
        findings,
        index: survey.index,
    })
}

// Returns the findings on a policy of this survey, or `AllocError` if allocation fails.
fn findings_of(
    alloc: Global,
    policy: &Policy,
    survey: &Survey<'_>,
) -> Result<Vec<Finding>, AllocError>
    requires { IsSurvey policy.now (policies.definitions policy.now) survey.now }
    ensures findings { IfOk result (λ found. AreFindings policy.now found.items) }
    ensures sound { IfOk result (λ found. has_error found.items ≡ false → IsSound policy.now) }
{
    let Uses { roots, undefined } = used_names(alloc, policy, &survey.index)?;
    let judged = judge(alloc, survey, roots.as_slice())?;
    let findings = collect_findings(alloc, survey, undefined, &judged)?;
    Ok(findings)
}

// Returns what the lists of a policy use, by the names' numbers.
fn used_names(alloc: Global, policy: &Policy, index: &Index) -> Result<Uses, AllocError>
    ensures roots { IfOk result (λ uses. uses.roots.items
        ≡ flat_map (granting_row index.now) (policies.lists policy.now)) }
    ensures undefined { IfOk result (λ uses. uses.undefined.items
        ≡ flat_map (missing_in index.now) (policies.lists policy.now)) }
{
    let lists = lists(alloc, policy)?;
    let roots = roots(alloc, index, lists.as_slice())?;
    let undefined = undefined(alloc, index, lists.as_slice())?;
    Ok(Uses { roots, undefined })
}

// Judges each alias in force, by the numbers of the aliases that rules and bound `Defaults` lines name.
fn judge(
    alloc: Global,
    survey: &Survey<'_>,
    roots: &[Option<usize>],
) -> Result<AliasMarks, AllocError>
    requires leads { LeadsInside survey.now }
    requires inside { IsInside roots.now (length survey.now.aliases.items) }
    ensures { IfOk result (λ judged. (p : Policy) → IsSurvey p (policies.definitions p) survey.now
        → roots.now ≡ flat_map (granting_row survey.now.index) (policies.lists p)
        → AreAliasMarks p judged) }
{
    let links = links(alloc, &survey.index, survey.aliases.as_slice())?;
    let Visited { states, looped } = all_visited(alloc, links.as_slice())?;
    let cyclic = cycles(
        alloc,
        links.as_slice(),
        states.as_slice(),
        looped.as_slice(),
    )?;
    let deep = too_deep(alloc, states.as_slice())?;
    let wide = too_wide(alloc, states.as_slice())?;
    let used = reached(alloc, links.as_slice(), roots)?;
    let unused = negated(alloc, used.as_slice())?;
    Ok(AliasMarks {
        cyclic,
        deep,
        wide,
        unused,
    })
}

// Whether an alias begins a chain of more than 64 aliases.
fn is_deep(state: State) -> bool
    ensures { result ≡ judgement.is_deep state }
{
    match state {
        State::Done(measure) => measure.depth >= 64,
        _ => false,
    }
}

// Whether an alias has more than 65,536 members when it is written out.
fn is_wide(state: State) -> bool
    ensures { result ≡ judgement.is_wide state }
{
    match state {
        State::Done(measure) => measure.width > 65_536,
        _ => false,
    }
}

// Returns, for each alias, whether it begins too long a chain.
fn too_deep(alloc: Global, states: &[State]) -> Result<Vec<bool>, AllocError>
    ensures { IfOk result (λ marks. marks.items ≡ map judgement.is_deep states.now) }
{
    states.iter().map(|state| is_deep(*state)).collect(alloc)
}

// Returns, for each alias, whether it has too many members.
fn too_wide(alloc: Global, states: &[State]) -> Result<Vec<bool>, AllocError>
    ensures { IfOk result (λ marks. marks.items ≡ map judgement.is_wide states.now) }
{
    states.iter().map(|state| is_wide(*state)).collect(alloc)
}

fn negated(alloc: Global, marks: &[bool]) -> Result<Vec<bool>, AllocError>
    ensures { IfOk result (λ others. others.items ≡ map not marks.now) }
{
    marks.iter().map(|mark| !*mark).collect(alloc)
}

// Returns the findings, class by class.
fn collect_findings(
    alloc: Global,
    survey: &Survey<'_>,
    undefined: Vec<Finding>,
    judged: &AliasMarks,
) -> Result<Vec<Finding>, AllocError>
    ensures { IfOk result (λ all. all.items ≡ found_in undefined.items
        (map alias_view survey.now.aliases.items) (map alias_view survey.now.redefinitions.items)
        judged.now) }
{
    let aliases = survey.aliases.as_slice();
    let mut undefined = undefined;
    let mut found = Vec::new(alloc);
    push_repeats(alloc, survey.redefinitions.as_slice(), &mut found)?;
    found.append(&mut undefined)?;
    push_marked(
        alloc,
        Class::Cycle,
        aliases,
        judged.cyclic.as_slice(),
        &mut found,
    )?;
    push_marked(
        alloc,
        Class::TooDeep,
        aliases,
        judged.deep.as_slice(),
        &mut found,
    )?;
    push_marked(
        alloc,
        Class::TooWide,
        aliases,
        judged.wide.as_slice(),
        &mut found,
    )?;
    push_marked(
        alloc,
        Class::Unused,
        aliases,
        judged.unused.as_slice(),
        &mut found,
    )?;
    Ok(found)
}

// Returns a finding on a definition.
fn finding_on(alloc: Global, class: Class, alias: &DefinitionRef<'_>) -> Result<Finding, AllocError>
    ensures { IfOk result (λ made. made ≡ found.finding_on class (alias_view alias.now)) }
{
    Ok(Finding {
        class,
        place: alias.place,
        kind: alias.kind,
        name: Seq::from_slice(alloc, alias.name)?,
    })
}

// Appends a finding for each further definition of a name.
fn push_repeats(
    alloc: Global,
    redefinitions: &[DefinitionRef<'_>],
    findings: &mut Vec<Finding>,
) -> Result<(), AllocError>
    ensures { OnOk result (findings.new.items
        ≡ findings.old.items ++ map (found.finding_on Class.Redefined)
        (map alias_view redefinitions.now)) }
{
    for alias in redefinitions {
        findings.push(finding_on(alloc, Class::Redefined, alias)?)?;
    }
    Ok(())
}

// Appends a finding for each alias that is marked.
fn push_marked(
    alloc: Global,
    class: Class,
    aliases: &[DefinitionRef<'_>],
    marks: &[bool],
    findings: &mut Vec<Finding>,
) -> Result<(), AllocError>
    ensures { OnOk result (findings.new.items
        ≡ findings.old.items ++ map (found.finding_on class)
        (items_where_true marks.now (map alias_view aliases.now))) }
{
    for (alias, mark) in aliases.iter().zip(marks) {
        push_if(alloc, class, alias, *mark, findings)?;
    }
    Ok(())
}

// Appends a finding on an alias if it is marked.
fn push_if(
    alloc: Global,
    class: Class,
    alias: &DefinitionRef<'_>,
    mark: bool,
    findings: &mut Vec<Finding>,
) -> Result<(), AllocError>
    ensures { OnOk result (findings.new.items
        ≡ findings.old.items ++ map (found.finding_on class)
        (items_where_true (mark ∷ []) (alias_view alias.now ∷ []))) }
{
    if mark {
        findings.push(finding_on(alloc, class, alias)?)?;
    }
    Ok(())
}

// Returns a finding for each use of an undefined name.
fn undefined(
    alloc: Global,
    index: &Index,
    lists: &[MemberList<'_>],
) -> Result<Vec<Finding>, AllocError>
    ensures { IfOk result (λ findings. findings.items
        ≡ flat_map (missing_in index.now) (map list_view lists.now)) }
{
    let mut findings = Vec::new(alloc);
    for list in lists {
        push_uses(alloc, index, list, &mut findings)?;
    }
    Ok(findings)
}

// Appends a finding for each use of an undefined name in a list.
fn push_uses(
    alloc: Global,
    index: &Index,
    list: &MemberList<'_>,
    findings: &mut Vec<Finding>,
) -> Result<(), AllocError>
    ensures { OnOk result (findings.new.items
        ≡ findings.old.items ++ missing_in index.now (list_view list.now)) }
{
    for member in list.members {
        push_use(
            alloc,
            index,
            list.kind,
            list.place,
            alias_name(&member.atom),
            findings,
        )?;
    }
    Ok(())
}

// Appends a finding if a name is undefined.
fn push_use(
    alloc: Global,
    index: &Index,
    kind: Kind,
    place: Place,
    name: Option<&[u8]>,
    findings: &mut Vec<Finding>,
) -> Result<(), AllocError>
    ensures { OnOk result (findings.new.items
        ≡ findings.old.items ++ atom_missing index.now kind place (option_copied name.entry)) }
{
    let Some(name) = name else {
        return Ok(());
    };
    if index.number(kind, name).is_some() {
        return Ok(());
    }
    findings.push(Finding {
        class: Class::Undefined,
        place,
        kind,
        name: Seq::from_slice(alloc, name)?,
    })?;
    Ok(())
}
