//! Schemas as they are written.
ghost use Rattle.std.specs.Prelude.{◌≡◌, IfOk};

use afl_lexer::{Copies, List, Memory, Name, Span};

/// The high bound that is written `*`, 2^62 - 1.
pub(crate) const UNBOUNDED: i64 = 4611686018427387903;

/// A schema's syntax tree: each name, type's word and number with its place in the text.
pub struct SchemaText {
    pub attributes: List<AttrText>,
    pub dimensions: List<DimText>,
    /// From `[` to `]`.
    pub brackets: Span,
}

impl Drop for SchemaText {
    fn drop(self) {
        let SchemaText {
            attributes: _,
            dimensions: _,
            brackets: _,
        } = self;
    }
}

/// An attribute as it is written, as `v: int64 not null`. An absent `null` is kept as a written one.
#[derive(Drop)]
pub struct AttrText {
    pub name: Name,
    pub name_span: Span,
    /// The type's word.
    pub word: Name,
    pub word_span: Span,
    pub nullable: bool,
}

/// A dimension as it is written, as `x=-5:*,100,2`. The high bound `*` is kept as its number, 4611686018427387903.
/// A bound's span includes its sign.
pub struct DimText {
    pub name: Name,
    pub name_span: Span,
    pub lo: i64,
    pub lo_span: Span,
    pub hi: i64,
    pub hi_span: Span,
    pub chunk: u64,
    pub chunk_span: Span,
    pub overlap: u64,
    pub overlap_span: Span,
}

impl Drop for DimText {
    fn drop(self) {
        let DimText {
            name: _,
            name_span: _,
            lo: _,
            lo_span: _,
            hi: _,
            hi_span: _,
            chunk: _,
            chunk_span: _,
            overlap: _,
            overlap_span: _,
        } = self;
    }
}

impl AttrText {
    pub fn copy(&self) -> Result<AttrText, Memory>
        ensures { IfOk result (λ copy. copy ≡ self.now) }
    {
        let name = self.name.copy()?;
        match self.word.copy() {
            Ok(word) => Ok(AttrText {
                name,
                name_span: self.name_span,
                word,
                word_span: self.word_span,
                nullable: self.nullable,
            }),
            Err(Memory) => {
                drop(name);
                Err(Memory)
            }
        }
    }
}

impl Copies for AttrText {
    fn copy(&self) -> Result<AttrText, Memory> {
        self.copy()
    }
}

impl DimText {
    pub fn copy(&self) -> Result<DimText, Memory>
        ensures { IfOk result (λ copy. copy ≡ self.now) }
    {
        Ok(DimText {
            name: self.name.copy()?,
            name_span: self.name_span,
            lo: self.lo,
            lo_span: self.lo_span,
            hi: self.hi,
            hi_span: self.hi_span,
            chunk: self.chunk,
            chunk_span: self.chunk_span,
            overlap: self.overlap,
            overlap_span: self.overlap_span,
        })
    }
}

impl Copies for DimText {
    fn copy(&self) -> Result<DimText, Memory> {
        self.copy()
    }
}

impl SchemaText {
    pub fn copy(&self) -> Result<SchemaText, Memory>
        ensures { IfOk result (λ copy. copy ≡ self.now) }
    {
        let attributes = self.attributes.copy()?;
        match self.dimensions.copy() {
            Ok(dimensions) => Ok(SchemaText {
                attributes,
                dimensions,
                brackets: self.brackets,
            }),
            Err(Memory) => {
                drop(attributes);
                Err(Memory)
            }
        }
    }
}

impl Copies for SchemaText {
    fn copy(&self) -> Result<SchemaText, Memory> {
        self.copy()
    }
}
