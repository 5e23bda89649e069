//! The rules of schemas.
ghost use Rattle.std.specs.Prelude.{◌≡◌, ◌^◌, ◌-◌, min, [], ◌++◌, map, length, IfOk};
ghost use Rattle.std.specs.List.{list_any};
ghost use Rattle.std.specs.Str.{bytes_eq};
ghost use Rattle.afl_lexer.specs.Schemas.{attribute_names, dimension_names, frame_length, frame_size, is_among, is_bound, IsValid};
ghost use Rattle.schema_grammar.specs.Rules.{attr_rules, attribute_of, attrs_rules, dim_rules, dimension_of, dims_rules};
ghost use Rattle.schema_grammar.specs.Rules.{first_broken, kind_named, rule, rules, schema_of, whole_rules, Means};

use crate::{AttrText, DimText, SchemaFault, SchemaText, TypeKind};
use afl_lexer::{Attribute, Dimension, Kind, List, Name, Schema, Span};
use std::alloc::Global;

/// How many attributes a schema may have.
const MAX_ATTRIBUTES: usize = 64;

/// How many dimensions a schema may have.
const MAX_DIMENSIONS: usize = 6;

/// The greatest bound, 2^62 - 1; the least is its negative.
const MAX_BOUND: u64 = 4611686018427387903;

/// How many places a chunk with its overlap may have, 2^48.
const MAX_FRAME: u64 = 281474976710656;

/// A rule, with the fault where it doesn't hold.
#[derive(Clone, Copy)]
pub struct Rule {
    pub holds: bool,
    pub span: Span,
    pub kind: TypeKind,
}

impl Rule {
    fn new(holds: bool, span: Span, kind: TypeKind) -> Rule
        ensures { result ≡ rule holds span kind }
    {
        Rule { holds, span, kind }
    }
}

/// The fault of the first rule that is broken.
fn first_broken(rules: &[Rule]) -> Option<SchemaFault>
    ensures { result ≡ first_broken rules.now }
{
    for rule in rules {
        if !rule.holds {
            return Some(SchemaFault::Rule {
                span: rule.span,
                kind: rule.kind,
            });
        }
    }
    None
}

/// The type that a word names.
fn kind_named(word: &[u8]) -> Option<Kind>
    ensures { result ≡ kind_named word.now }
{
    if word == b"int64".as_slice() {
        Some(Kind::Int64)
    } else if word == b"string".as_slice() {
        Some(Kind::Str)
    } else if word == b"bool".as_slice() {
        Some(Kind::Bool)
    } else {
        None
    }
}

fn is_same(a: &Name, b: &Name) -> bool
    ensures { result ≡ bytes_eq a.now b.now }
{
    a.as_slice() == b.as_slice()
}

/// Whether an attribute has this name.
fn is_attribute(name: &Name, attributes: &[Attribute]) -> bool
    ensures { result ≡ list_any (λ attribute. bytes_eq name.now attribute.name) attributes.now }
{
    attributes
        .iter()
        .any(|attribute| is_same(name, &attribute.name))
}

/// Whether a dimension has this name.
fn is_dimension(name: &Name, dimensions: &[Dimension]) -> bool
    ensures { result ≡ list_any (λ dimension. bytes_eq name.now dimension.name) dimensions.now }
{
    dimensions
        .iter()
        .any(|dimension| is_same(name, &dimension.name))
}

/// Whether an attribute or a dimension has this name.
#[tactic(auto, using(crate::proofs::RuleLemmas::among_parts))]
fn is_used(name: &Name, attributes: &[Attribute], dimensions: &[Dimension]) -> bool
    ensures { result ≡ is_among name.now (attribute_names attributes.now ++ dimension_names dimensions.now) }
{
    is_attribute(name, attributes) || is_dimension(name, dimensions)
}

/// The rules of an attribute behind others, whose word names this type.
#[tactic(auto, using(crate::proofs::RuleLemmas::among_attributes, crate::proofs::RuleLemmas::count_attributes))]
fn attribute_rules(before: &[Attribute], written: &AttrText, named: Option<Kind>) -> [Rule; 3]
    requires { named ≡ kind_named written.now.word }
    ensures { result ≡ attr_rules (attribute_names before.now) written.now }
{
    let is_repeated = is_attribute(&written.name, before);
    [
        Rule::new(
            before.len() < MAX_ATTRIBUTES,
            written.name_span,
            TypeKind::TooManyAttributes,
        ),
        Rule::new(named.is_some(), written.word_span, TypeKind::UnknownType),
        Rule::new(!is_repeated, written.name_span, TypeKind::RepeatedName),
    ]
}

/// The attribute that is written behind others.
fn attribute(before: &[Attribute], written: &AttrText) -> Result<Attribute, SchemaFault>
    ensures { Means (attr_rules (attribute_names before.now) written.now) (attribute_of written.now) result }
{
    let named = kind_named(written.word.as_slice());
    if let Some(fault) = first_broken(&attribute_rules(before, written, named)) {
        return Err(fault);
    }
    let kind = named.unwrap_or(Kind::Int64);
    Ok(Attribute {
        name: written.name.copy()?,
        kind,
        nullable: written.nullable,
    })
}

/// The attributes that are written, from left to right.
#[tactic(auto, using(crate::proofs::RuleLemmas::attrs_step, crate::proofs::RuleLemmas::attrs_err))]
fn attributes(alloc: Global, written: &[AttrText]) -> Result<List<Attribute>, SchemaFault>
    ensures { Means (attrs_rules [] written.now) (map attribute_of written.now) result }
{
    let mut attributes = List::new(alloc);
    for text in written {
        let attribute = attribute(attributes.as_slice(), text)?;
        attributes.push(attribute)?;
    }
    Ok(attributes)
}

fn is_bound(number: i64) -> bool
    ensures { result ≡ is_bound number }
{
    number.unsigned_abs() <= MAX_BOUND
}

/// The rules of a dimension behind attributes and other dimensions.
#[tactic(auto, using(crate::proofs::RuleLemmas::count_dimensions))]
fn dimension_rules(attributes: &[Attribute], before: &[Dimension], written: &DimText) -> [Rule; 7]
    ensures { result ≡ dim_rules (attribute_names attributes.now) (dimension_names before.now) written.now }
{
    let is_repeated = is_used(&written.name, attributes, before);
    [
        Rule::new(
            before.len() < MAX_DIMENSIONS,
            written.name_span,
            TypeKind::TooManyDimensions,
        ),
        Rule::new(!is_repeated, written.name_span, TypeKind::RepeatedName),
        Rule::new(is_bound(written.lo), written.lo_span, TypeKind::BoundsRange),
        Rule::new(is_bound(written.hi), written.hi_span, TypeKind::BoundsRange),
        Rule::new(
            written.lo <= written.hi,
            written.hi_span,
            TypeKind::BoundsOrder,
        ),
        Rule::new(1 <= written.chunk, written.chunk_span, TypeKind::ZeroChunk),
        Rule::new(
            written.overlap <= written.chunk,
            written.overlap_span,
            TypeKind::OverlapTooLarge,
        ),
    ]
}

/// The dimension that is written behind attributes and other dimensions.
fn dimension(
    attributes: &[Attribute],
    before: &[Dimension],
    written: &DimText,
) -> Result<Dimension, SchemaFault>
    ensures { Means (dim_rules (attribute_names attributes.now) (dimension_names before.now) written.now) (dimension_of written.now) result }
{
    if let Some(fault) = first_broken(&dimension_rules(attributes, before, written)) {
        return Err(fault);
    }
    Ok(Dimension {
        name: written.name.copy()?,
        lo: written.lo,
        hi: written.hi,
        chunk: written.chunk,
        overlap: written.overlap,
    })
}

/// The dimensions that are written, from left to right, behind the attributes.
#[tactic(auto, using(crate::proofs::RuleLemmas::dims_step, crate::proofs::RuleLemmas::dims_err))]
fn dimensions(
    alloc: Global,
    attributes: &[Attribute],
    written: &[DimText],
) -> Result<List<Dimension>, SchemaFault>
    ensures { Means (dims_rules (attribute_names attributes.now) [] written.now) (map dimension_of written.now) result }
{
    let mut dimensions = List::new(alloc);
    for text in written {
        let dimension = dimension(attributes, dimensions.as_slice(), text)?;
        dimensions.push(dimension)?;
    }
    Ok(dimensions)
}

/// How many places a chunk has along a dimension with its overlap, or 2^64 - 1 where they are more.
fn frame_length(dimension: &Dimension) -> u64
    ensures { result ≡ min (frame_length dimension.now) (2 ^ 64 - 1) }
{
    let overlaps = dimension.overlap.saturating_mul(2);
    dimension.chunk.saturating_add(overlaps)
}

/// How many places a chunk has with its overlap, or 2^64 - 1 where they are more.
#[tactic(auto, using(crate::proofs::RuleLemmas::frame_more))]
fn frame_size(dimensions: &[Dimension]) -> u64
    ensures { result ≡ min (frame_size dimensions.now) (2 ^ 64 - 1) }
{
    let mut size: u64 = 1;
    for dimension in dimensions {
        size = size.saturating_mul(frame_length(dimension));
    }
    size
}

/// The rules of a schema as a whole.
fn whole_rules(attributes: &[Attribute], dimensions: &[Dimension], brackets: Span) -> [Rule; 2]
    ensures { result ≡ whole_rules attributes.now dimensions.now brackets }
{
    let is_whole = 1 <= attributes.len() && 1 <= dimensions.len();
    [
        Rule::new(
            frame_size(dimensions) <= MAX_FRAME,
            brackets,
            TypeKind::ChunkTooLarge,
        ),
        Rule::new(is_whole, brackets, TypeKind::WrongCount),
    ]
}

/// The schema that is written, or the first rule that it breaks.
///
/// A syntax tree that no text has, without an attribute or a dimension, is refused as a wrong count.
#[tactic(auto, using(crate::proofs::RuleLemmas::broken_then))]
pub fn meaning(alloc: Global, text: &[u8], shape: &SchemaText) -> Result<Schema, SchemaFault>
    ensures meaning { Means (rules shape.now) (schema_of shape.now) result }
    ensures valid { IfOk result IsValid }
{
    let _ = text;
    let attributes = attributes(alloc, shape.attributes.as_slice())?;
    let dimensions = dimensions(alloc, attributes.as_slice(), shape.dimensions.as_slice())?;
    let rules = whole_rules(attributes.as_slice(), dimensions.as_slice(), shape.brackets);
    if let Some(fault) = first_broken(&rules) {
        drop(attributes);
        drop(dimensions);
        return Err(fault);
    }
    Ok(Schema {
        attributes,
        dimensions,
    })
}
