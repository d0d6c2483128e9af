//! The one spelling of a command: its words, with one space between each two.
ghost use Rattle.std.specs.Prelude.{◌≡◌, [], ◌∷◌, ◌++◌, ◌+◌, ◌<◌, drop, map, length, OnOk, OnErr, decimal};
ghost use Rattle.std.specs.Fmt.{signed_decimal};
ghost use Rattle.std.specs.List.{flat_map};
ghost use Rattle.rp_command.specs.Fronts.{Appends, AppendsFront};
ghost use Rattle.rp_command.specs.Versions.{version_of};
ghost use Rattle.rp_command.specs.Views.{expression_of, child_of, command_of};
ghost use Rattle.rp_language.specs.Grammar.{Version as Versions, spelling, expression_words, half_space_words, point_words, box_words, corner_words, coordinate_text, thousandths_text, two};
ghost use Rattle.rp_space.specs.Boxes.{integer_box};
ghost use Rattle.rp_space.specs.Corners.{polygon_corner, polygon_corners};
ghost use Rattle.rp_spelling.specs.Spells.{Spells, before_size, children_words, words_of_operand};

use itoa::{Buffer, Integer};
use rp_command::{Command, Entries, Expr, Operand, Version};
use rp_lists::{Name, Names};
use rp_space::{Corner, Corners, Half, IntBox, Point};
use std::alloc::AllocError;

/// Appends a space and `word`.
fn write_word(word: &[u8], out: &mut Vec<u8>) -> Result<(), AllocError>
    ensures { Spells result out.old.items out.new.items (word.now ∷ []) }
{
    out.push(b' ')?;
    out.extend_from_slice(word)
}

/// Appends numbers, each after a space.
fn write_numbers<I: Integer>(numbers: &[I], out: &mut Vec<u8>) -> Result<(), AllocError>
    ensures { Spells result out.old.items out.new.items (map I.text numbers.now) }
{
    let mut buffer = Buffer::new();
    for number in numbers {
        write_word(buffer.format(*number).as_bytes(), out)?;
    }
    Ok(())
}

/// Returns the byte of a digit.
fn digit(n: u128) -> u8
    requires { n < 10 }
    ensures { result ≡ 48 + n }
{
    b'0' + n as u8
}

/// Appends a natural number of thousandths: its units, a point and three digits.
fn write_thousandths(n: u128, out: &mut Vec<u8>) -> Result<(), AllocError>
    ensures { Appends result out.old.items out.new.items (thousandths_text n) }
{
    let mut buffer = Buffer::new();
    out.extend_from_slice(buffer.format(n / 1000).as_bytes())?;
    let rest = n % 1000;
    let digits = [digit(rest / 100), digit(rest / 10 % 10), digit(rest % 10)];
    out.extend_from_slice(&[b'.', digits[0], digits[1], digits[2]])
}

/// Returns a space, followed by a minus sign if `v` is below 0.
fn before_size(v: i128) -> &'static [u8]
    ensures { result.now ≡ before_size v }
{
    if v < 0 { b" -" } else { b" " }
}

/// Appends a space and `v`, a number of thousandths, as a decimal.
fn write_decimal(v: i128, out: &mut Vec<u8>) -> Result<(), AllocError>
    ensures { Spells result out.old.items out.new.items (coordinate_text two v ∷ []) }
{
    out.extend_from_slice(before_size(v))?;
    write_thousandths(v.unsigned_abs(), out)
}

/// Appends a space and a coordinate.
fn write_coordinate(version: Version, v: i128, out: &mut Vec<u8>) -> Result<(), AllocError>
    ensures { Spells result out.old.items out.new.items (coordinate_text (version_of version) v ∷ []) }
{
    match version {
        Version::One => write_numbers(&[v], out),
        Version::Two => write_decimal(v, out),
    }
}

/// Appends coordinates, each after a space.
fn write_coordinates(
    version: Version,
    numbers: &[i128],
    out: &mut Vec<u8>,
) -> Result<(), AllocError>
    ensures { Spells result out.old.items out.new.items (map (coordinate_text (version_of version)) numbers.now) }
{
    for number in numbers {
        write_coordinate(version, *number, out)?;
    }
    Ok(())
}

/// Appends the four numbers of a half-space.
fn write_half(half: &Half, out: &mut Vec<u8>) -> Result<(), AllocError>
    ensures { Spells result out.old.items out.new.items (half_space_words half.now) }
{
    let (a, b, c, d) = half.numbers();
    write_numbers(&[a, b, c, d], out)
}

/// Appends the three coordinates of a point.
fn write_position(version: Version, point: &Point, out: &mut Vec<u8>) -> Result<(), AllocError>
    ensures { Spells result out.old.items out.new.items (coordinate_text (version_of version) point.now.x ∷ coordinate_text (version_of version) point.now.y ∷ coordinate_text (version_of version) point.now.z ∷ []) }
{
    let (x, y, z, _) = point.numbers();
    write_coordinates(version, &[x, y, z], out)
}

/// Appends the weight of a point.
fn write_weight(point: &Point, out: &mut Vec<u8>) -> Result<(), AllocError>
    ensures { Spells result out.old.items out.new.items (signed_decimal point.now.w ∷ []) }
{
    let (_, _, _, w) = point.numbers();
    write_numbers(&[w], out)
}

/// Appends the four numbers of a point.
fn write_point(version: Version, point: &Point, out: &mut Vec<u8>) -> Result<(), AllocError>
    ensures { Spells result out.old.items out.new.items (point_words (version_of version) point.now) }
{
    write_position(version, point, out)?;
    write_weight(point, out)
}

/// Appends the six numbers of a box.
fn write_block(version: Version, block: &IntBox, out: &mut Vec<u8>) -> Result<(), AllocError>
    ensures { Spells result out.old.items out.new.items (box_words (version_of version) (integer_box block.now)) }
{
    let [x1, y1, z1] = block.lo;
    let [x2, y2, z2] = block.hi;
    write_coordinates(
        version,
        &[
            x1 as i128, y1 as i128, z1 as i128, x2 as i128, y2 as i128, z2 as i128,
        ],
        out,
    )
}

/// Appends the two numbers of a corner.
fn write_corner(version: Version, corner: &Corner, out: &mut Vec<u8>) -> Result<(), AllocError>
    ensures { Spells result out.old.items out.new.items (corner_words (version_of version) (polygon_corner corner.now)) }
{
    write_coordinates(version, &[corner.x as i128, corner.y as i128], out)
}

/// Appends the two numbers of each corner.
fn write_corners(version: Version, corners: &Corners, out: &mut Vec<u8>) -> Result<(), AllocError>
    ensures { Spells result out.old.items out.new.items (flat_map (corner_words (version_of version)) (polygon_corners corners.now.items)) }
{
    for corner in corners.items() {
        write_corner(version, corner, out)?;
    }
    Ok(())
}

/// Appends the two heights of a prism.
fn write_heights(version: Version, low: i32, high: i32, out: &mut Vec<u8>) -> Result<(), AllocError>
    ensures { Spells result out.old.items out.new.items (coordinate_text (version_of version) low ∷ coordinate_text (version_of version) high ∷ []) }
{
    write_coordinates(version, &[low as i128, high as i128], out)
}

/// Appends the number of corners, and the two numbers of each.
fn write_polygon(version: Version, corners: &Corners, out: &mut Vec<u8>) -> Result<(), AllocError>
    ensures { Spells result out.old.items out.new.items (decimal (length (polygon_corners corners.now.items)) ∷ flat_map (corner_words (version_of version)) (polygon_corners corners.now.items)) }
{
    write_numbers(&[corners.items().len()], out)?;
    write_corners(version, corners, out)
}

/// Returns the word that begins an expression.
fn node_word(region: &Expr) -> &'static [u8]
    ensures { (v : Versions) → expression_words v (expression_of region.now) ≡ result.now ∷ drop 1 (expression_words v (expression_of region.now)) }
{
    match region {
        Expr::Half(_) => b"half",
        Expr::Block(_) => b"box",
        Expr::Prism(_, _, _) => b"prism",
        Expr::All => b"all",
        Expr::Nothing => b"none",
        Expr::Name(_) => b"name",
        Expr::Lot(_) => b"lot",
        Expr::And(_, _) => b"and",
        Expr::Or(_, _) => b"or",
        Expr::Minus(_, _) => b"minus",
        Expr::Not(_) => b"not",
    }
}

/// Appends the words of an expression.
fn write_expression(version: Version, region: &Expr, out: &mut Vec<u8>) -> Result<(), AllocError>
    ensures { Spells result out.old.items out.new.items (expression_words (version_of version) (expression_of region.now)) }
{
    write_word(node_word(region), out)?;
    match region {
        Expr::Half(half) => write_half(half, out),
        Expr::Block(block) => write_block(version, block, out),
        Expr::Prism(low, high, corners) => {
            write_heights(version, *low, *high, out)?;
            write_polygon(version, corners, out)
        }
        Expr::All | Expr::Nothing => Ok(()),
        Expr::Name(name) | Expr::Lot(name) => write_word(name.bytes(), out),
        Expr::And(first, second) | Expr::Or(first, second) | Expr::Minus(first, second) => {
            write_expression(version, first, out)?;
            write_expression(version, second, out)
        }
        Expr::Not(operand) => write_expression(version, operand, out),
    }
}

/// Appends a name and the words of an expression.
fn write_named(
    version: Version,
    name: &Name,
    region: &Expr,
    out: &mut Vec<u8>,
) -> Result<(), AllocError>
    ensures { Spells result out.old.items out.new.items (name.now ∷ expression_words (version_of version) (expression_of region.now)) }
{
    write_word(name.bytes(), out)?;
    write_expression(version, region, out)
}

/// Appends the children of a subdivision.
fn write_children(version: Version, children: &Entries, out: &mut Vec<u8>) -> Result<(), AllocError>
    ensures { Spells result out.old.items out.new.items (children_words (version_of version) (map child_of children.now.items)) }
{
    for child in children.items() {
        write_named(version, &child.0, &child.1, out)?;
    }
    Ok(())
}

/// Appends names.
fn write_names(names: &Names, out: &mut Vec<u8>) -> Result<(), AllocError>
    ensures { Spells result out.old.items out.new.items names.now.items }
{
    for name in names.items() {
        write_word(name.bytes(), out)?;
    }
    Ok(())
}

/// Appends the number of children of a subdivision, and the children.
fn write_subdivision(
    version: Version,
    children: &Entries,
    out: &mut Vec<u8>,
) -> Result<(), AllocError>
    ensures { Spells result out.old.items out.new.items (decimal (length (map child_of children.now.items)) ∷ children_words (version_of version) (map child_of children.now.items)) }
{
    write_numbers(&[children.items().len()], out)?;
    write_children(version, children, out)
}

/// Appends the number of names, and the names.
fn write_consolidation(lots: &Names, out: &mut Vec<u8>) -> Result<(), AllocError>
    ensures { Spells result out.old.items out.new.items (decimal (length lots.now.items) ∷ lots.now.items) }
{
    write_numbers(&[lots.items().len()], out)?;
    write_names(lots, out)
}

/// Appends the words of `operand` in `version`.
fn write_operand(
    version: Version,
    operand: Operand<'_>,
    out: &mut Vec<u8>,
) -> Result<(), AllocError>
    ensures { Spells result out.old.items out.new.items (words_of_operand (version_of version) operand.entry) }
{
    match operand {
        Operand::Name(name) => write_word(name.bytes(), out),
        Operand::Region(region) => write_expression(version, region, out),
        Operand::Point(point) => write_point(version, point, out),
        Operand::Height(z) => write_coordinate(version, z as i128, out),
        Operand::Line(line) => write_numbers(&[line], out),
        Operand::Equals => write_word(b"=", out),
        Operand::Names(names) => write_consolidation(names, out),
        Operand::Children(children) => write_subdivision(version, children, out),
        Operand::Missing => Ok(()),
    }
}

/// Appends the words of `operands` in `version`.
fn write_operands(
    version: Version,
    operands: &[Operand<'_>],
    out: &mut Vec<u8>,
) -> Result<(), AllocError>
    ensures { Spells result out.old.items out.new.items (flat_map (words_of_operand (version_of version)) operands.now) }
{
    for operand in operands {
        write_operand(version, *operand, out)?;
    }
    Ok(())
}

/// Appends to `out` the one spelling of the command `c` in `version`: its words with one space between, half-spaces and
/// points in lowest terms. After `AllocError` `out` has what it had and a prefix of the spelling.
#[tactic(auto, unfolding(rp_language::specs::Grammar::spelling))]
pub fn write_command(version: Version, c: &Command, out: &mut Vec<u8>) -> Result<(), AllocError>
    ensures ok { OnOk result (out.new.items ≡ out.old.items ++ spelling (version_of version) (command_of c.now)) }
    ensures err { OnErr result (AppendsFront out.old.items out.new.items (spelling (version_of version) (command_of c.now))) }
{
    out.extend_from_slice(c.verb().word())?;
    write_operands(version, &c.operands(), out)
}
