#![tactic(auto)]
//! Laws of parts and of lists of parts: trapezoids, slim cells, least boxes, contact, the eight relations and pieces.
//!
//! * the points of the trapezoids of a prism;
//! * the slim cell (without redundant inequalities) and the least box of a part;
//! * nearness (the closure), contact and overlap, with the eight relations;
//! * pieces, the groups into which links of contact join the parts.
//!
//! Each function is a law over the definitions of `rp_geometry`: its contract is the law, and its body is empty.

ghost use Rattle.rp_geometry.specs.laws.PartLaws.{BoxesOfContactMeet, BoxesOfOverlapMeet, ContactIsFound, LeastBoxIsLeast, NearCellIsWeak, NearRegionIsWeak, OverlapIsFound, SlimKeepsMembers, SlimPartIsPart};
ghost use Rattle.rp_geometry.specs.laws.PieceLaws.{GroupsAreJoined, LinksAreContacts, OnePieceIsLinked, PiecesAreGroups, PiecesAreOne};
ghost use Rattle.rp_geometry.specs.laws.PrismLaws.{CrossingsAreEven, TrapezoidIsBetween, TrapezoidIsKept};
ghost use Rattle.rp_geometry.specs.laws.RegionLaws.{ContactOfPartsIsFound, ContactWithUnionIsWithOne, NearUnionIsNearOne, OverlapOfPartsIsFound, RelationIsOne, RelationsAreOfMembers, RelationsExclude, ShapeIsRegion, TangentialPartTouchesOutside, TangentialPartTouchesRest};

/// States that for every x the number of edges of a polygon that span it is even.
pub fn crossings_are_even()
    ensures { CrossingsAreEven }
{}

/// States that the trapezoid of an edge has exactly the points of the edge's span, from the least y to below the edge
/// by the sign rule, between the heights.
pub fn trapezoid_is_between()
    ensures { TrapezoidIsBetween }
{}

/// States that the half-spaces of a trapezoid are within their bounds and in lowest terms.
pub fn trapezoid_is_kept()
    ensures { TrapezoidIsKept }
{}

/// States that the box of a cell's vertices is the least whole box around its members.
pub fn least_box_is_least()
    ensures { LeastBoxIsLeast }
{}

/// States that the slim cell has exactly the members of the cell.
pub fn slim_keeps_members()
    ensures { SlimKeepsMembers }
{}

/// States that the slim cell of a cell with a member makes a part, if it is not too long.
pub fn slim_part_is_part()
    ensures { SlimPartIsPart }
{}

/// States that a point is near a cell with a member iff it is a point of the cell's weak system.
pub fn near_cell_is_weak()
    ensures { NearCellIsWeak }
{}

/// States that a point is near a region iff it is a point of the weak system of one of its cells with a member.
pub fn near_region_is_weak()
    ensures { NearRegionIsWeak }
{}

/// States that two cells have a common member iff the search finds an inside certificate of both together.
pub fn overlap_is_found()
    ensures { OverlapIsFound }
{}

/// States that two cells with a member are in contact iff the search finds a weak point of both together.
pub fn contact_is_found()
    ensures { ContactIsFound }
{}

/// States that boxes around two cells with a common member share more than boundary.
pub fn boxes_of_overlap_meet()
    ensures { BoxesOfOverlapMeet }
{}

/// States that boxes around two cells in contact share a point, the boundary included.
pub fn boxes_of_contact_meet()
    ensures { BoxesOfContactMeet }
{}

/// States that two lists of parts have a common member iff the search finds an inside certificate of a part of each
/// together.
pub fn overlap_of_parts_is_found()
    ensures { OverlapOfPartsIsFound }
{}

/// States that two lists of parts, each with a member, are in contact iff the search finds a weak point of a part of
/// each together.
pub fn contact_of_parts_is_found()
    ensures { ContactOfPartsIsFound }
{}

/// States that every shape has the members of some bounded region.
pub fn shape_is_region()
    ensures { ShapeIsRegion }
{}

/// States that a point is near the union of two shapes iff it is near one of them.
pub fn near_union_is_near_one()
    ensures { NearUnionIsNearOne }
{}

/// States that a shape is in contact with the union of two shapes iff it is in contact with one of them.
pub fn contact_with_union_is_with_one()
    ensures { ContactWithUnionIsWithOne }
{}

/// States that some bounded region is externally connected to a proper part and to its whole iff the part is in contact
/// with the outside of the whole.
pub fn tangential_part_touches_outside()
    ensures { TangentialPartTouchesOutside }
{}

/// States, for a list of parts with the members of the outside of a whole: some bounded region is externally connected
/// to a part of this whole and to the whole iff the part is in contact with the list.
pub fn tangential_part_touches_rest()
    ensures { TangentialPartTouchesRest }
{}

/// States that two nonempty shapes are in exactly one of the eight relations.
pub fn relation_is_one()
    ensures { RelationIsOne }
{}

/// States that two nonempty shapes, whose numbers may have any size, are in no two of the eight relations.
pub fn relations_exclude()
    ensures { RelationsExclude }
{}

/// States that shapes with the same members are in the same relations.
pub fn relations_are_of_members()
    ensures { RelationsAreOfMembers }
{}

/// States that a list of parts is in one piece iff links of contact join all its parts.
pub fn one_piece_is_linked()
    ensures { OnePieceIsLinked }
{}

/// States that the links found by weak tests of pairs of parts are those of contact.
pub fn links_are_contacts()
    ensures { LinksAreContacts }
{}

/// States that the computed groups are exactly the classes of the numbers that links join.
pub fn groups_are_joined()
    ensures { GroupsAreJoined }
{}

/// States that the pieces of a list of parts are exactly the groups into which links of contact join the parts.
pub fn pieces_are_groups()
    ensures { PiecesAreGroups }
{}

/// States that a list of parts has exactly one list of pieces.
pub fn pieces_are_one()
    ensures { PiecesAreOne }
{}
