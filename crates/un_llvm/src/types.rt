//! Types: how large they are, and what lies where in them.

use crate::cursor::Cursor;
use crate::lists::push;
use crate::refusal::{Missing, Refusal};
use crate::token::{Token, number_of, parted};
use std::alloc::Global;
use un_base::memory_error::NoMemory;

/// A type by its place in a table of types.
pub type TypeId = usize;

/// What a type is.
#[derive(Clone, Copy)]
pub enum Kind {
    /// No value.
    Void,
    /// A number of so many bits.
    Integer(u32),
    /// An address.
    Pointer,
    /// A row of values of a type.
    Array(TypeId),
    /// Values side by side: the place of the first one among all fields, and their number.
    Record { first: usize, count: usize },
    /// What functions are.
    Function,
    /// A type of which nothing is known.
    Other,
}

/// A type.
#[derive(Clone, Copy)]
pub struct Shape {
    pub kind: Kind,
    /// How many bytes it takes.
    pub size: u32,
    /// The number of bytes of which its address is a multiple.
    align: u32,
}

/// A field of a record.
#[derive(Clone, Copy)]
pub struct Field {
    /// How many bytes stand before it.
    pub offset: u32,
    pub kind: TypeId,
}

/// A type that a name stands for.
#[derive(Clone, Copy)]
struct Named<'a> {
    name: &'a [u8],
    kind: TypeId,
}

/// The types of a module.
#[derive(Drop)]
pub struct Types<'a> {
    alloc: Global,
    shapes: Vec<Shape>,
    fields: Vec<Field>,
    named: Vec<Named<'a>>,
}

/// A type that is read, and whose parts are not all there.
#[derive(Drop)]
enum Open {
    Array(u32),
    Record(Vec<TypeId>),
}

/// A type of which nothing is known.
const OTHER: Shape = Shape {
    kind: Kind::Other,
    size: 0,
    align: 1,
};

/// A function.
const FUNCTION: Shape = Shape {
    kind: Kind::Function,
    ..OTHER
};

/// An address.
const POINTER: Shape = Shape {
    kind: Kind::Pointer,
    size: 4,
    align: 4,
};

/// Whether it is not known how many bytes a type takes.
fn is_unknown(shape: Shape) -> bool {
    shape.size == 0 && matches!(shape.kind, Kind::Other | Kind::Function)
}

/// How many bytes a number of so many bits takes.
fn bytes_of(bits: u32) -> u32 {
    match bits {
        0..=8 => 1,
        9..=16 => 2,
        17..=32 => 4,
        _ => 8,
    }
}

/// The type of numbers of so many bits.
fn integer(bits: u32) -> Shape {
    if bits > 64 {
        return OTHER;
    }
    let size = bytes_of(bits);
    Shape {
        kind: Kind::Integer(bits),
        size,
        align: size,
    }
}

/// The least multiple of `align` that is at least `n`.
fn rounded(n: u32, align: u32) -> u32 {
    let align = align.max(1);
    let over = n % align;
    if over == 0 {
        n
    } else {
        n.saturating_add(align.saturating_sub(over))
    }
}

/// The type that a word names by itself.
fn plain(word: &[u8]) -> Shape {
    if word == b"void".as_slice() {
        return Shape {
            kind: Kind::Void,
            ..OTHER
        };
    }
    if word == b"ptr".as_slice() {
        return POINTER;
    }
    if word == b"float".as_slice() {
        return Shape {
            size: 4,
            align: 4,
            ..OTHER
        };
    }
    if word == b"double".as_slice() {
        return Shape {
            size: 8,
            align: 8,
            ..OTHER
        };
    }
    let (sigil, digits) = parted(word, 1);
    match number_of(digits) {
        Some(bits) if sigil == b"i".as_slice() => {
            integer(u32::try_from(bits).unwrap_or(u32::MAX))
        }
        _ => OTHER,
    }
}

impl<'a> Types<'a> {
    /// A table without types.
    pub fn new(alloc: Global) -> Types<'a> {
        Types {
            alloc,
            shapes: Vec::new(alloc),
            fields: Vec::new(alloc),
            named: Vec::new(alloc),
        }
    }

    /// A type.
    pub fn shape(&self, id: TypeId) -> Shape {
        self.shapes.get(id).copied().unwrap_or(OTHER)
    }

    /// The field at a place of a record.
    pub fn field(&self, first: usize, count: usize, place: i64) -> Option<Field> {
        let place = usize::try_from(place).ok()?;
        if place >= count {
            return None;
        }
        self.fields.get(first.saturating_add(place)).copied()
    }

    /// Says what a name stands for, from now on.
    pub fn define(&mut self, name: &'a [u8], kind: TypeId) -> Result<(), NoMemory> {
        for named in self.named.iter_mut() {
            if named.name == name {
                named.kind = kind;
                return Ok(());
            }
        }
        push(&mut self.named, Named { name, kind })
    }

    /// A type more.
    fn add(&mut self, shape: Shape) -> Result<TypeId, NoMemory> {
        let id = self.shapes.len();
        push(&mut self.shapes, shape)?;
        Ok(id)
    }

    /// The type that a name stands for.
    fn named(&mut self, name: &[u8]) -> Result<TypeId, NoMemory> {
        for named in &self.named {
            if named.name == name {
                return Ok(named.kind);
            }
        }
        self.add(OTHER)
    }

    /// A row of so many values of a type.
    fn array(&mut self, count: u32, element: TypeId) -> Result<TypeId, NoMemory> {
        let shape = self.shape(element);
        if is_unknown(shape) {
            return self.add(OTHER);
        }
        let Shape { size, align, .. } = shape;
        self.add(Shape {
            kind: Kind::Array(element),
            size: size.saturating_mul(count),
            align,
        })
    }

    /// A record of values of types.
    fn record(&mut self, kinds: &[TypeId]) -> Result<TypeId, NoMemory> {
        let first = self.fields.len();
        let mut size: u32 = 0;
        let mut most: u32 = 1;
        for kind in kinds {
            let shape = self.shape(*kind);
            if is_unknown(shape) {
                return self.add(OTHER);
            }
            let offset = rounded(size, shape.align);
            let field = Field {
                offset,
                kind: *kind,
            };
            push(&mut self.fields, field)?;
            size = offset.saturating_add(shape.size);
            most = most.max(shape.align);
        }
        let kind = Kind::Record {
            first,
            count: kinds.len(),
        };
        self.add(Shape {
            kind,
            size: rounded(size, most),
            align: most,
        })
    }

    /// Takes the beginning of a type: a whole one, or one that is open then.
    fn begin(
        &mut self,
        cursor: &mut Cursor<'_, 'a>,
        open: &mut Vec<Open>,
    ) -> Result<Option<TypeId>, Refusal<'a>> {
        match cursor.take() {
            Some(Token::Word(word)) => Ok(Some(self.add(plain(word))?)),
            Some(Token::Local(name)) => Ok(Some(self.named(name)?)),
            Some(Token::Mark(b'[')) => {
                let count = cursor.number()?;
                cursor.word()?;
                let count = u32::try_from(count).unwrap_or(u32::MAX);
                push(open, Open::Array(count))?;
                Ok(None)
            }
            Some(Token::Mark(b'{')) => {
                if cursor.takes_mark(b'}') {
                    return Ok(Some(self.record(&[])?));
                }
                push(open, Open::Record(Vec::new(self.alloc)))?;
                Ok(None)
            }
            _ => Err(cursor.lacks(Missing::Type)),
        }
    }

    /// Goes on behind a whole type within one that is open: the open one is whole then, or another part of it begins.
    fn close(
        &mut self,
        cursor: &mut Cursor<'_, 'a>,
        open: &mut Vec<Open>,
        last: Open,
        part: TypeId,
    ) -> Result<Option<TypeId>, Refusal<'a>> {
        match last {
            Open::Array(count) => {
                cursor.mark(b']')?;
                Ok(Some(self.array(count, part)?))
            }
            Open::Record(mut kinds) => {
                push(&mut kinds, part)?;
                if cursor.takes_mark(b',') {
                    push(open, Open::Record(kinds))?;
                    return Ok(None);
                }
                cursor.mark(b'}')?;
                Ok(Some(self.record(kinds.as_slice())?))
            }
        }
    }

    /// A type.
    ///
    /// # Errors
    /// `Type` or `Form` where none stands there.
    pub fn read(&mut self, cursor: &mut Cursor<'_, 'a>) -> Result<TypeId, Refusal<'a>> {
        let mut open = Vec::new(self.alloc);
        let mut whole: Option<TypeId> = None;
        for _ in 0..cursor.left().saturating_mul(2).saturating_add(2) {
            let Some(part) = whole else {
                whole = self.begin(cursor, &mut open)?;
                continue;
            };
            if cursor.takes_mark(b'*') {
                whole = Some(self.add(POINTER)?);
            } else if cursor.takes_mark(b'(') {
                cursor.skip_parentheses();
                whole = Some(self.add(FUNCTION)?);
            } else if let Some(last) = open.pop() {
                whole = self.close(cursor, &mut open, last, part)?;
            } else {
                return Ok(part);
            }
        }
        Err(cursor.lacks(Missing::Type))
    }

    /// How many bits the values of a type have that may stand in a name: 32 of an address, 0 of nothing.
    ///
    /// # Errors
    /// `Type` where there are no such values.
    pub(crate) fn read_width(&mut self, cursor: &mut Cursor<'_, 'a>) -> Result<u32, Refusal<'a>> {
        let about = match cursor.peek() {
            Some(Token::Word(word)) => word,
            _ => b"",
        };
        let id = self.read(cursor)?;
        match self.shape(id).kind {
            Kind::Void => Ok(0),
            Kind::Pointer => Ok(32),
            Kind::Integer(bits) if bits >= 1 && bits <= 32 => Ok(bits),
            // (a call has the whole type of a function where the number of its arguments varies)
            Kind::Function => Err(cursor.lacks(Missing::Variadic)),
            _ => Err(cursor.lacks_word(Missing::Type, about)),
        }
    }
}
