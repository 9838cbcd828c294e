use crate::{Duplicate, Many, NoMemory, Text};
use thiserror::Error;

/// One step down from a submodel or an element to one of its children.
///
/// IDTA-01002-3-0, idShortPath.
#[derive(Debug, Drop)]
pub enum PathStep {
    /// To the child of this idShort, of what is no SubmodelElementList.
    Name(Text),
    /// To the child at this place of a SubmodelElementList, counted from 0.
    Place(u64),
}

impl Duplicate for PathStep {
    fn copy(&self) -> Result<PathStep, NoMemory> {
        match self {
            PathStep::Name(name) => Ok(PathStep::Name(name.copy()?)),
            PathStep::Place(place) => Ok(PathStep::Place(*place)),
        }
    }
}

/// A way down from a submodel or an element. The empty path stays there.
///
/// IDTA-01002-3-0, idShortPath.
#[derive(Debug, Drop)]
pub struct Path {
    pub steps: Many<PathStep>,
}

impl Duplicate for Path {
    fn copy(&self) -> Result<Path, NoMemory> {
        Ok(Path {
            steps: self.steps.copy()?,
        })
    }
}

/// A rule that is broken at an element.
#[derive(Debug, Drop)]
pub struct Fault {
    /// The number of the constraint AASd of IDTA-01001-3-0, or 0 for a lexical rule.
    pub number: u16,
    /// The element, from the submodel that was looked at on; empty for the document itself.
    pub path: Path,
}

impl Duplicate for Fault {
    fn copy(&self) -> Result<Fault, NoMemory> {
        Ok(Fault {
            number: self.number,
            path: self.path.copy()?,
        })
    }
}

/// A path leads to no element.
#[derive(Clone, Copy, Debug, Drop, PartialEq, Eq, Error)]
#[error("the path leads to no element beyond its first {steps} steps")]
pub struct Missing {
    /// The length of the longest part from the front of the path that leads to an element.
    pub steps: usize,
}

impl Duplicate for Missing {
    fn copy(&self) -> Result<Missing, NoMemory> {
        Ok(*self)
    }
}
