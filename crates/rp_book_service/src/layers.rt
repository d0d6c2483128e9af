//! Layers that lines choose.
ghost use Rattle.std.specs.Prelude.{◌≡◌, ◌∷◌, ◌+◌, ◌≤◌, [], None, length, IfOk, OnOk};
ghost use Rattle.std.specs.List.{cons_option};
ghost use Rattle.indexmap.specs.IndexSet.{insert_all};
ghost use Rattle.rp_command.specs.Versions.{version_of};
ghost use Rattle.rp_command.specs.Views.{line_of};
ghost use Rattle.rp_language.specs.Grammar.{reading};
ghost use Rattle.rp_language.specs.Name.{label_eq};
ghost use Rattle.rp_model.specs.states.State.{base_layer};
ghost use Rattle.rp_reports.specs.Output.{most_script_bytes};
ghost use Rattle.rp_reports.specs.Report.{script_lines};
ghost use Rattle.rp_book_service.specs.Layers.{IsAddition, choice_after, choice_in, first_layers, first_registration, inherited_from, last_choice, layer_line, layer_of_line, layers_of, lines_in, registers};
ghost use Rattle.rp_book.specs.Lines.{IsEnded};

use indexmap::IndexSet;
use rp_command::{Command, Line, Version};
use rp_lists::Name;
use rp_scripts::{next_line, split_mark};
use rp_syntax::read_line;
use std::alloc::{AllocError, Global};

/// The choice of a layer: the layer, and the number of the `layer` line.
#[derive(Clone, Copy)]
pub struct Choice {
    pub layer: Name,
    pub line: u32,
}

/// The number of a line that registers a lot, and the choice of the lot's layer by an earlier act.
#[derive(Clone, Copy)]
pub struct Inherited {
    pub line: u32,
    pub choice: Choice,
}

/// What lines that were added do with layers.
#[derive(Drop)]
pub struct Addition {
    /// The layers that the lines choose and no earlier line does, each once, in order.
    pub layers: Vec<Name>,
    /// The first lot in a layer that an earlier act chose. `None` if the lines choose a layer first, if they register
    /// no lot, and if no earlier line chooses a layer.
    pub inherited: Option<Inherited>,
}

/// Returns the layer that `line` chooses. `None` unless `line` is `layer X` for a name X.
fn chosen(line: &[u8]) -> Option<Name>
    ensures { result ≡ layer_of_line line.now }
{
    let word = line.strip_prefix(b"layer ".as_slice())?;
    Name::new(word)
}

/// Inserts the layer that `line` chooses, if it chooses one, into `layers`.
fn gather_line(line: &[u8], layers: &mut IndexSet<Name>) -> Result<(), AllocError>
    ensures { OnOk result (layers.new.keys ≡ insert_all label_eq layers.old.keys (cons_option (layer_of_line line.now) [])) }
{
    let Some(layer) = chosen(line) else {
        return Ok(());
    };
    layers.insert(layer)?;
    Ok(())
}

/// Inserts the layers that `lines` choose, in order, into `layers`. Each line costs one look-up.
fn gather(lines: &[u8], layers: &mut IndexSet<Name>) -> Result<(), AllocError>
    ensures { OnOk result (layers.new.keys ≡ insert_all label_eq layers.old.keys (layers_of lines.now)) }
{
    let mut rest = lines;
    while let Some((line, behind)) = next_line(rest) {
        gather_line(line, layers)?;
        rest = behind;
    }
    Ok(())
}

/// Returns the layer that a script begins in.
fn base_layer() -> Name
    ensures { result ≡ base_layer }
{
    Name::new(b"base").unwrap()
}

/// Inserts the layers that `script` and `lines` choose into `layers`, which has the first layer of a script. Returns
/// those that `lines` choose first.
fn gather_both(
    alloc: Global,
    script: &[u8],
    lines: &[u8],
    layers: &mut IndexSet<Name>,
) -> Result<Vec<Name>, AllocError>
    requires { layers.old.keys ≡ base_layer ∷ [] }
    ensures { IfOk result (λ first. first.items ≡ first_layers script.now lines.now) }
{
    gather(script, layers)?;
    let known = layers.len();
    gather(lines, layers)?;
    let (_, first) = layers.as_slice().split_at(known);
    Vec::from_slice(alloc, first)
}

/// Returns the layers that `lines` choose and no line of `script` does, each once, in order. A script begins in `base`.
fn first_chosen(alloc: Global, script: &[u8], lines: &[u8]) -> Result<Vec<Name>, AllocError>
    ensures { IfOk result (λ first. first.items ≡ first_layers script.now lines.now) }
{
    let mut layers = IndexSet::new(alloc);
    layers.insert(base_layer())?;
    gather_both(alloc, script, lines, &mut layers)
}

/// Returns the last choice of a layer after `line`, which has the number `number`.
fn choice_after(before: Option<Choice>, number: u32, line: &[u8]) -> Option<Choice>
    ensures { result ≡ choice_after before number line.now }
{
    match chosen(line) {
        Some(layer) => Some(Choice {
            layer,
            line: number,
        }),
        None => before,
    }
}

/// Returns the last choice of a layer in the body of a script, and the number of the line after the body.
fn read_choices(body: &[u8]) -> (Option<Choice>, u32)
    requires { length body.now ≤ most_script_bytes }
    ensures choice { result.0 ≡ choice_in None 1 (script_lines body.now) }
    ensures next { result.1 ≡ length (script_lines body.now) + 1 }
    ensures few { result.1 ≤ length body.now + 1 }
{
    let mut choice = None;
    let mut number = 1;
    let mut rest = body;
    while let Some((line, behind)) = next_line(rest) {
        choice = choice_after(choice, number, line);
        number += 1;
        rest = behind;
    }
    (choice, number)
}

/// Returns the last choice of a layer in `script`. `None` if no line chooses a layer: the script ends in `base`, as it
/// begins.
pub fn last_choice(script: &[u8]) -> Option<Choice>
    requires { length script.now ≤ most_script_bytes }
    ensures { result ≡ last_choice script.now }
{
    let (_, body) = split_mark(script);
    let (choice, _) = read_choices(body);
    choice
}

/// Returns whether a line registers a lot.
fn registers(line: &Line) -> bool
    ensures { result ≡ registers (line_of line.now) }
{
    matches!(line, Line::Cmd(Command::Register(..)))
}

/// Returns whether a line of a script of `version` registers a lot.
fn line_registers(alloc: Global, version: Version, line: &[u8]) -> Result<bool, AllocError>
    ensures { IfOk result (λ found. found ≡ registers (reading (version_of version) line.now)) }
{
    let read = read_line(alloc, version, line)?;
    let found = registers(&read);
    drop(read);
    Ok(found)
}

/// Returns the number of the first of `lines` that registers a lot, if no line before it chooses a layer. The first of
/// `lines` has the number `first`.
fn first_registration(
    alloc: Global,
    version: Version,
    first: u32,
    lines: &[u8],
) -> Result<Option<u32>, AllocError>
    requires { first + length lines.now ≤ most_script_bytes + 1 }
    ensures { IfOk result (λ found. found ≡ first_registration (version_of version) first (script_lines lines.now)) }
{
    let mut number = first;
    let mut rest = lines;
    while let Some((line, behind)) = next_line(rest) {
        if line_registers(alloc, version, line)? {
            return Ok(Some(number));
        }
        if chosen(line).is_some() {
            return Ok(None);
        }
        number += 1;
        rest = behind;
    }
    Ok(None)
}

/// Returns the first lot that `lines` register in the layer that `script` ends in, with the last choice of a layer in
/// `script`.
fn find_inherited(
    alloc: Global,
    script: &[u8],
    lines: &[u8],
) -> Result<Option<Inherited>, AllocError>
    requires { length script.now + length lines.now ≤ most_script_bytes }
    ensures { IfOk result (λ found. found ≡ inherited_from script.now lines.now) }
{
    let (version, body) = split_mark(script);
    let (choice, next) = read_choices(body);
    let Some(choice) = choice else {
        return Ok(None);
    };
    match first_registration(alloc, version, next, lines)? {
        Some(line) => Ok(Some(Inherited { line, choice })),
        None => Ok(None),
    }
}

/// Returns what `lines` after `script` do with layers.
pub(crate) fn describe(alloc: Global, script: &[u8], lines: &[u8]) -> Result<Addition, AllocError>
    requires { length script.now + length lines.now ≤ most_script_bytes }
    ensures { IfOk result (IsAddition script.now lines.now) }
{
    let layers = first_chosen(alloc, script, lines)?;
    let inherited = find_inherited(alloc, script, lines)?;
    Ok(Addition { layers, inherited })
}

/// Returns the line that chooses `layer`.
fn layer_line(alloc: Global, layer: &Name) -> Result<Vec<u8>, AllocError>
    ensures { IfOk result (λ line. line.items ≡ layer_line layer.now) }
{
    let mut line = Vec::from_slice(alloc, b"layer ")?;
    line.extend_from_slice(layer.bytes())?;
    line.push(b'\n')?;
    Ok(line)
}

/// Returns `lines` with a line before them that chooses `layer`, if a layer is named and there are lines.
pub(crate) fn put_in_layer(
    alloc: Global,
    layer: Option<Name>,
    lines: Vec<u8>,
) -> Result<Vec<u8>, AllocError>
    ensures lines { IfOk result (λ all. all.items ≡ lines_in layer lines.items) }
    ensures end { IfOk result (λ all. IsEnded lines.items → IsEnded all.items) }
{
    let Some(layer) = layer else {
        return Ok(lines);
    };
    if lines.is_empty() {
        return Ok(lines);
    }
    let mut all = layer_line(alloc, &layer)?;
    all.extend_from_slice(&lines)?;
    Ok(all)
}
