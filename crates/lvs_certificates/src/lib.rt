// A list of certificate names, laid end to end (docs/format.md, 8.4), read at its places and never copied.
//
// A layer below the public calls: any bytes may be the list. `requires` of the search asks for what the calls have tested before: that the
// list is fit, and that the packet's name is good.
#![tactic(auto)]

ghost use Rattle.std.specs.Prelude.{◌≡◌, ltb, length};
ghost use Rattle.tlv.specs.Lists.{first_index};
ghost use Rattle.lvs_spec.specs.Limits.{max_certificates};
ghost use Rattle.lvs_spec.specs.Model.{model_of};
ghost use Rattle.lvs_spec.specs.Names.{good_name, packet_name};
ghost use Rattle.lvs_spec.specs.Certificates.{entries, unfit, fit_entries, list_reading, allows};
ghost use Rattle.lvs_names.specs.Rows.{row_from};
ghost use Rattle.lvs_certificates.specs.Answers.{index_from, list_answer};
ghost use Rattle.lvs_certificates.specs.Left.{entry_of};

use lvs_bindings::Slots;
use lvs_bindings::names::Names;
use lvs_edges::nodes::Nodes;
use lvs_names::Component;
use lvs_spec::MAX_CERTIFICATES;
use lvs_spec::refusal::{Refusal, Side};

// The entries of a list, one after the other: each with its header, or `None` for a rest that cannot be cut. tlv's `Elements` gives neither.
#[derive(Clone, Copy)]
struct Entries<'a> {
    rest: &'a [u8],
}

impl<'a> Iterator for Entries<'a> {
    ghost use Rattle.std.specs.Iterator.{YieldsFirstBy, item_count};
    ghost use Rattle.lvs_certificates.specs.Left.{entry_of, entries_left};

    type Item = Option<Component<'a>>;

    ghost next_gives = { YieldsFirstBy entry_of entries_left };

    ghost remaining = { item_count entries_left };

    fn next(&mut self) -> Option<Option<Component<'a>>> {
        let list = self.rest;
        if list.is_empty() {
            return None;
        }
        match lvs_names::component_at(list, 0) {
            Some(key) => {
                self.rest = &list[key.bytes.len()..];
                Some(Some(key))
            }
            None => {
                self.rest = &[];
                Some(None)
            }
        }
    }
}

/// Tests the whole list.
pub fn read_list(list: &[u8]) -> Result<(), Refusal>
    ensures { result ≡ list_answer (list_reading (entries list.now)) }
{
    if too_many(list) {
        return Err(Refusal::ManyCertificates);
    }
    if let Some(index) = first_unfit(list) {
        let index = index as u32;
        return Err(Refusal::UnfitCertificate { index });
    }
    Ok(())
}

// Whether bytes are left after 64 entries have been cut off.
fn too_many(list: &[u8]) -> bool
    ensures { result ≡ ltb max_certificates (length (entries list.now)) }
{
    let mut all = Entries { rest: list };
    all.nth(MAX_CERTIFICATES).is_some()
}

// The first entry that cannot be cut or is no key name.
fn first_unfit(list: &[u8]) -> Option<usize>
    ensures { result ≡ index_from (first_index unfit 0 (entries list.now)) }
{
    let mut all = Entries { rest: list };
    all.position(|entry| is_unfit(entry))
}

// No key name, or a rest that cannot be cut.
fn is_unfit(entry: Option<Component>) -> bool
    ensures { result ≡ unfit (entry_of entry.entry) }
{
    match entry {
        Some(key) => lvs_names::read_name(key.bytes, Side::Key).is_err(),
        None => true,
    }
}

/// The first entry that may sign the packet, whose components start at `from`. An entry is a name, so that its components start behind its header.
pub fn first_allowed<'a>(
    nodes: &'a Nodes<'a>,
    packet: &'a [u8],
    from: usize,
    list: &'a [u8],
) -> Option<usize>
    requires good_packet { good_name (row_from packet.now from) ≡ packet_name packet.now }
    requires fit { list_reading (entries list.now) ≡ fit_entries }
    ensures { result ≡ index_from (first_index (allows (model_of nodes.now.model.now) packet.now) 0 (entries list.now)) }
{
    let all = Entries { rest: list };
    for (index, entry) in all.enumerate() {
        let Some(key) = entry else {
            return None; // never in a fit list
        };
        let names = Names {
            packet,
            key: key.bytes,
        };
        let mut slots = Slots::new();
        let mut path = [0u16; 1]; // of which none is lent
        let pair = lvs_walk::find_pair(nodes, names, from, key.header, &mut slots, &mut path[..0]);
        if pair.is_some() {
            return Some(index);
        }
    }
    None
}
