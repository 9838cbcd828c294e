// Documents, and elements without their children, as they are put into a link piece by piece.

use crate::document::as_sent;
use aas_command::Refusal;
use aas_json_read::{read_concept, read_element, read_shell};
use aas_json_write_members::{
    CanonicalMembers, Members, Pen, Show, Stop, pour_concept, pour_shell,
};
use aas_model::{Concept, Element, ReadFault, Shell};
use aas_out::{LinkOut, Out, Pouring, add};
use aas_outside::MemLink;
use aas_rows::RowView;
use std::alloc::Global;

/// All stops, in their order.
const STOPS: [Stop; 6] = [
    Stop::Annotations,
    Stop::InoutputVariables,
    Stop::InputVariables,
    Stop::OutputVariables,
    Stop::Statements,
    Stop::Value,
];

/// What can be read, and poured.
pub(crate) trait Pours: Drop {
    fn read(alloc: Global, json: &str) -> Result<Self, ReadFault>;

    fn pour<O: Out>(&self, out: &mut O) -> Pouring;
}

impl Pours for Shell {
    fn read(alloc: Global, json: &str) -> Result<Shell, ReadFault> {
        read_shell(alloc, json.as_bytes())
    }

    fn pour<O: Out>(&self, out: &mut O) -> Pouring {
        pour_shell(Pouring::Going, self, out)
    }
}

impl Pours for Concept {
    fn read(alloc: Global, json: &str) -> Result<Concept, ReadFault> {
        read_concept(alloc, json.as_bytes())
    }

    fn pour<O: Out>(&self, out: &mut O) -> Pouring {
        pour_concept(Pouring::Going, self, out)
    }
}

impl Pours for Element {
    fn read(alloc: Global, json: &str) -> Result<Element, ReadFault> {
        read_element(alloc, json.as_bytes(), 1)
    }

    fn pour<O: Out>(&self, out: &mut O) -> Pouring {
        let show = Show {
            cut: 1,
            blobs: true,
        };
        let row = RowView {
            common: &self.common,
            id_short: self.common.id_short.as_ref().map(|text| text.as_str()),
            payload: &self.payload,
            role: self.role,
            level: 1,
        };
        let mut pen = Pen {
            state: add(Pouring::Going, b"{", out),
            later: false,
        };
        for stop in STOPS {
            pen = CanonicalMembers.put_part(pen.state, show, &row, Some(stop), pen.later, out);
        }
        let last = CanonicalMembers.put_part(pen.state, show, &row, None, pen.later, out);
        add(last.state, b"}", out)
    }
}

/// What is poured of what is read, into a link on which each call moves 7 bytes at most.
pub(crate) fn pour_document<D: Pours>(alloc: Global, json: &str) -> Result<String, Refusal> {
    let document = D::read(alloc, json)?;
    let mut link = MemLink::new(alloc, b"", 7, json.len(), &[])?;
    let mut out = LinkOut { link: &mut link };
    let _ = document.pour(&mut out);
    as_sent(alloc, json, link.sent().to_vec(alloc)?)
}
