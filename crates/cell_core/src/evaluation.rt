//! The values of all cells for a packet.

ghost use Rattle.std.specs.Prelude.{ℕ, ◌≡◌, ◌⊎◌, is_some, ◌+◌, ◌≤◌, ◌<◌, ◌^◌, ◌&&◌, true, if◌then◌else◌, Some, List, length, take, drop, slice_index, map as map_list, IfOk, OnOk};
ghost use Rattle.byteorder.specs.Endian.{little_bytes};
ghost use Rattle.xdp_state.specs.xdp_machine.Memory.{bytes_in};
ghost use Rattle.xdp_state.specs.xdp_maps.State.{MapState, decl_at, contents_at, with_contents};
ghost use Rattle.xdp_state.specs.xdp_maps.Calls.{lookup_of, stored, changed, change_bytes, number_before};
ghost use Rattle.cell_core.specs.declared.site.Act.TheVariants as Act;
ghost use Rattle.xdp_state.specs.xdp_maps.Operations.{operated};
ghost use Rattle.cell_core.specs.Cells.{value_in, bit, on, site_in};
ghost use Rattle.cell_core.specs.Sites.{SiteView, records, bytes_of, operation_as, operation_on, applied, after, found_in, answer, loaded, number_or, site_at, read_on, IsValue, IsCellRun};
ghost use Rattle.cell_core.specs.Formed.{AreFormed, IsInRange, FitsMap, AllFit, IsInside, AreSited};
ghost use Rattle.cell_core.specs.View.{cell_of, site_of, program_of, packet_of};

use crate::cell::Cell;
use crate::operator::Operator;
use crate::program::{CellProgram, PacketIn};
use crate::site::{Act, Site};
use crate::value::{bit, bits_from, input, number, value_in};
use std::alloc::{AllocError, Global};
use xdp_state::bpf_isa::Size;
use xdp_state::memory;
use xdp_state::xdp_maps::change::Change;
use xdp_state::xdp_maps::state::Maps;

/// What an operation takes.
#[derive(Drop)]
struct Asked {
    key: Vec<u8>,
    value: Vec<u8>,
    first: u64,
    second: u64,
}

/// The first `count` bytes of words of eight.
#[tactic(auto, using(crate::proofs::Sites::spelled_next))]
fn spell(alloc: Global, values: &[u64], words: &[u32], count: u32) -> Result<Vec<u8>, AllocError>
    ensures { IfOk result (λ bytes. bytes.items ≡ bytes_of count (map_list (value_in values.now) words.now)) }
{
    let mut bytes = Vec::new(alloc);
    for word in words {
        let spelled = memory::bytes_of(value_in(values, *word));
        bytes.extend_from_slice(&spelled)?;
    }
    bytes.truncate(count as usize);
    Ok(bytes)
}

/// The operands after the first.
fn rest(operands: &[u32]) -> &[u32]
    ensures { result.now ≡ drop 1 operands.now }
{
    match operands {
        [] => operands,
        [_, rest @ ..] => rest,
    }
}

/// What the operation of a site takes, by the values of earlier cells.
fn ask(
    alloc: Global,
    values: &[u64],
    site: &Site,
    key: u32,
    value: u32,
) -> Result<Asked, AllocError>
    ensures key { IfOk result (λ asked. asked.key.items ≡ bytes_of key (map_list (value_in values.now) site.now.key.items)) }
    ensures value { IfOk result (λ asked. asked.value.items ≡ bytes_of value (drop 1 (map_list (value_in values.now) site.now.operands.items))) }
    ensures first { IfOk result (λ asked. asked.first ≡ slice_index (map_list (value_in values.now) site.now.operands.items) 0) }
    ensures second { IfOk result (λ asked. asked.second ≡ slice_index (map_list (value_in values.now) site.now.operands.items) 1) }
{
    let operands: &[u32] = &site.operands;
    Ok(Asked {
        key: spell(alloc, values, &site.key, key)?,
        value: spell(alloc, values, rest(operands), value)?,
        first: input(values, operands, 0),
        second: input(values, operands, 1),
    })
}

/// The number at a place of the value under a key, 0 where there is none.
fn load(maps: &Maps, map: u32, key: &[u8], at: u32, size: Size) -> u64
    requires map { map < length maps.now.decls }
    requires key { length key.now ≡ (decl_at maps.now map).key }
    requires inside { at + bytes_in size ≤ (decl_at maps.now map).value }
    ensures { result ≡ loaded at size (lookup_of (contents_at maps.now map) key.now) }
{
    let _decls = maps.decls();
    match maps.lookup(map, key) {
        Some(bytes) => memory::number_at(bytes, at as usize, size),
        None => 0,
    }
}

/// A store of the low bytes of a number into the value under a key: 1 where the key is there, else 0.
#[tactic(auto, using(xdp_machine::proofs::SizeLaws::low_part))]
fn store(maps: &mut Maps, map: u32, key: &[u8], at: u32, size: Size, n: u64) -> u64
    requires map { map < length maps.old.decls }
    requires key { length key.now ≡ (decl_at maps.old map).key }
    requires inside { at + bytes_in size ≤ (decl_at maps.old map).value }
    ensures present { result ≡ bit (is_some (lookup_of (contents_at maps.old map) key.now)) }
    ensures maps { maps.new ≡ with_contents maps.old map (stored (contents_at maps.old map) key.now at (little_bytes (bytes_in size) n)) }
{
    let bytes = memory::bytes_of(n);
    bit(maps.store(map, key, at, &bytes[..memory::bytes_in(size)]))
}

/// An atomic change of a number in the value under a key: the number that it finds, 0 where there is none.
fn change(maps: &mut Maps, map: u32, key: &[u8], at: u32, change: Change) -> u64
    requires map { map < length maps.old.decls }
    requires key { length key.now ≡ (decl_at maps.old map).key }
    requires inside { at + change_bytes change.wide ≤ (decl_at maps.old map).value }
    ensures before { result ≡ number_or (number_before (contents_at maps.old map) key.now at change) }
    ensures maps { maps.new ≡ with_contents maps.old map (changed (contents_at maps.old map) key.now at change) }
{
    match maps.rmw(map, key, at, change) {
        Some(old) => old,
        None => 0,
    }
}

/// Does a site's operation, and says what it answers.
fn operate(maps: &mut Maps, map: u32, act: Act, asked: &Asked) -> u64
    requires map { map < length maps.old.decls }
    requires key { length asked.now.key.items ≡ (decl_at maps.old map).key }
    requires value { act ≡ Act.Update → length asked.now.value.items ≡ (decl_at maps.old map).value }
    requires inside { IsInside (decl_at maps.old map).value act }
    ensures answer { result ≡ answer maps.old map act (operation_as act asked.now.key.items asked.now.value.items asked.now.first asked.now.second) }
    ensures maps { maps.new ≡ (if records act then operated maps.old map (operation_as act asked.now.key.items asked.now.value.items asked.now.first asked.now.second) else maps.old) }
{
    let key: &[u8] = &asked.key;
    match act {
        Act::Lookup => bit(maps.lookup(map, key).is_some()),
        Act::Load(at, size) => load(maps, map, key, at, size),
        Act::Update => maps
            .update(map, key, &asked.value, asked.first)
            .cast_unsigned(),
        Act::Delete => maps.delete(map, key).cast_unsigned(),
        Act::Store(at, size) => store(maps, map, key, at, size, asked.first),
        Act::Atomic(at, atomic) => {
            let it = Change {
                kind: atomic.kind,
                wide: atomic.wide,
                source: asked.first,
                compare: asked.second,
            };
            change(maps, map, key, at, it)
        }
    }
}

/// Does the operation of a site, and says what it answers.
#[tactic(auto, using(crate::proofs::SpelledLaws::words_length, crate::proofs::Sites::value_length))]
fn apply(alloc: Global, values: &[u64], site: &Site, maps: &mut Maps) -> Result<u64, AllocError>
    requires { FitsMap maps.old.decls (site_of site.now) }
    ensures answer { IfOk result (λ n. n ≡ answer maps.old site.now.map site.now.act (operation_on (value_in values.now) maps.old (site_of site.now))) }
    ensures maps { OnOk result (maps.new ≡ (if records site.now.act then operated maps.old site.now.map (operation_on (value_in values.now) maps.old (site_of site.now)) else maps.old)) }
{
    let decl = &maps.decls()[site.map as usize];
    let (key, value) = (decl.key, decl.value);
    let asked = ask(alloc, values, site, key, value)?;
    Ok(operate(maps, site.map, site.act, &asked))
}

/// Whether the key of a site is there.
#[tactic(auto, using(crate::proofs::SpelledLaws::words_length, crate::proofs::Sites::value_length))]
fn find(alloc: Global, values: &[u64], site: &Site, maps: &Maps) -> Result<u64, AllocError>
    requires { FitsMap maps.now.decls (site_of site.now) }
    ensures { IfOk result (λ n. n ≡ bit (found_in (contents_at maps.now site.now.map) (operation_on (value_in values.now) maps.now (site_of site.now)))) }
{
    let decl = &maps.decls()[site.map as usize];
    let (key, value) = (decl.key, decl.value);
    let asked = ask(alloc, values, site, key, value)?;
    Ok(bit(is_found(maps, site.map, site.act, &asked)))
}

fn is_found(maps: &Maps, map: u32, act: Act, asked: &Asked) -> bool
    requires map { map < length maps.now.decls }
    requires key { length asked.now.key.items ≡ (decl_at maps.now map).key }
    ensures { result ≡ found_in (contents_at maps.now map) (operation_as act asked.now.key.items asked.now.value.items asked.now.first asked.now.second) }
{
    let known = maps.lookup(map, &asked.key).is_some();
    match act {
        Act::Update => asked.first <= 2 && known,
        _ => known,
    }
}

/// Does the operation of a site that may write and whose guard is on.
fn pass(alloc: Global, values: &[u64], site: &Site, maps: &mut Maps) -> Result<(), AllocError>
    requires { FitsMap maps.old.decls (site_of site.now) }
    ensures { OnOk result (maps.new ≡ applied (value_in values.now) maps.old (site_of site.now)) }
{
    if site.act.records() && value_in(values, site.guard) != 0 {
        let _ = apply(alloc, values, site, maps)?;
    }
    Ok(())
}

/// Does those of the sites from one on up to another.
fn advance(
    alloc: Global,
    values: &[u64],
    sites: &[Site],
    from: usize,
    to: usize,
    maps: &mut Maps,
) -> Result<(), AllocError>
    requires order { from ≤ to }
    requires range { to ≤ length sites.now }
    requires fits { AllFit maps.old.decls (map_list site_of sites.now) }
    ensures maps { OnOk result ((start : MapState) → maps.old ≡ after (value_in values.now) start (take from (map_list site_of sites.now)) → maps.new ≡ after (value_in values.now) start (take to (map_list site_of sites.now))) }
    ensures decls { OnOk result (maps.new.decls ≡ maps.old.decls) }
{
    for i in from..to {
        pass(alloc, values, &sites[i], maps)?;
    }
    Ok(())
}

/// Brings the maps from where the first `done` sites are passed to where the first `to` are.
fn reach(
    alloc: Global,
    values: &[u64],
    sites: &[Site],
    done: usize,
    to: usize,
    maps: &Maps,
    own: &mut Maps,
) -> Result<(), AllocError>
    requires done { done ≤ length sites.now }
    requires range { to ≤ length sites.now }
    requires fits { AllFit maps.now.decls (map_list site_of sites.now) }
    requires decls { own.old.decls ≡ maps.now.decls }
    requires passed { own.old ≡ after (value_in values.now) maps.now (take done (map_list site_of sites.now)) }
    ensures passed { OnOk result (own.new ≡ after (value_in values.now) maps.now (take to (map_list site_of sites.now))) }
    ensures decls { OnOk result (own.new.decls ≡ maps.now.decls) }
{
    if to < done {
        own.copy_from(maps);
        advance(alloc, values, sites, 0, to, own)?;
        return Ok(());
    }
    advance(alloc, values, sites, done, to, own)?;
    Ok(())
}

/// What a read of a site finds, where its guard is on, and how many sites are passed then.
fn read(
    alloc: Global,
    values: &[u64],
    sites: &[Site],
    op: Operator,
    at: usize,
    maps: &Maps,
    own: &mut Maps,
    done: usize,
) -> Result<(u64, usize), AllocError>
    requires site { at < length sites.now }
    requires done { done ≤ length sites.now }
    requires fits { AllFit maps.now.decls (map_list site_of sites.now) }
    requires decls { own.old.decls ≡ maps.now.decls }
    requires passed { own.old ≡ after (value_in values.now) maps.now (take done (map_list site_of sites.now)) }
    ensures value { IfOk result (λ r. on (value_in values.now (site_at (map_list site_of sites.now) at).guard) ≡ true → r.0 ≡ read_on (value_in values.now) (after (value_in values.now) maps.now (take at (map_list site_of sites.now))) (site_at (map_list site_of sites.now) at) op) }
    ensures passed { IfOk result (λ r. own.new ≡ after (value_in values.now) maps.now (take r.1 (map_list site_of sites.now))) }
    ensures decls { OnOk result (own.new.decls ≡ maps.now.decls) }
    ensures range { IfOk result (λ r. (r.1 ≤ done) ⊎ (r.1 ≤ at + 1)) }
{
    let site = &sites[at];
    if value_in(values, site.guard) == 0 {
        return Ok((0, done));
    }
    reach(alloc, values, sites, done, at, maps, own)?;
    match op {
        Operator::Found(_) => {
            let found = find(alloc, values, site, own)?;
            Ok((found, at))
        }
        Operator::Answer(_) => {
            let answer = apply(alloc, values, site, own)?;
            Ok((answer, at + 1))
        }
        _ => Ok((0, at)),
    }
}

/// The value of a cell on those of earlier ones, and how many sites are passed then.
fn settle(
    alloc: Global,
    packet: &PacketIn,
    cell: &Cell,
    values: &[u64],
    sites: &[Site],
    maps: &Maps,
    own: &mut Maps,
    done: usize,
) -> Result<(u64, usize), AllocError>
    requires in_range { IsInRange cell.now.op }
    requires width { cell.now.width ≤ 64 }
    requires from { cell.now.from ≤ 63 }
    requires site { (j : ℕ) → site_in cell.now.op ≡ Some j → j < length sites.now }
    requires done { done ≤ length sites.now }
    requires fits { AllFit maps.now.decls (map_list site_of sites.now) }
    requires decls { own.old.decls ≡ maps.now.decls }
    requires passed { own.old ≡ after (value_in values.now) maps.now (take done (map_list site_of sites.now)) }
    ensures value { IfOk result (λ r. IsValue (packet_of packet.now) maps.now (map_list site_of sites.now) (value_in values.now) (cell_of cell.now) r.0) }
    ensures passed { IfOk result (λ r. own.new ≡ after (value_in values.now) maps.now (take r.1 (map_list site_of sites.now))) }
    ensures decls { OnOk result (own.new.decls ≡ maps.now.decls) }
    ensures range { IfOk result (λ r. (r.1 ≤ done) ⊎ ((j : ℕ) × (site_in cell.now.op ≡ Some j) × (r.1 ≤ j + 1))) }
{
    match cell.op.site() {
        Some(site) => {
            let (found, next) = read(
                alloc,
                values,
                sites,
                cell.op,
                site as usize,
                maps,
                own,
                done,
            )?;
            Ok((bits_from(found, cell.from, cell.width), next))
        }
        None => {
            let n = number(packet, cell.op, values, &cell.ins);
            Ok((bits_from(n, cell.from, cell.width), done))
        }
    }
}

/// The values of all cells, in order: in them reads whose sites' guards are on answer as the maps after the packet's own
/// earlier operations do.
pub fn eval(
    alloc: Global,
    program: &CellProgram,
    packet: &PacketIn,
    maps: &Maps,
) -> Result<Vec<u64>, AllocError>
    requires cells { AreFormed (program_of program.now).cells }
    requires sites { AreSited maps.now.decls (program_of program.now) }
    ensures count { IfOk result (λ values. length values.items ≡ length program.now.cells.items) }
    ensures run { IfOk result (λ values. IsCellRun (packet_of packet.now) maps.now (program_of program.now) (value_in values.items)) }
{
    let mut own = Maps::new(alloc, maps.decls())?;
    own.copy_from(maps);
    let mut values = Vec::new(alloc);
    let mut done = 0;
    for cell in &program.cells {
        let (value, next) = settle(
            alloc,
            packet,
            cell,
            &values,
            &program.sites,
            maps,
            &mut own,
            done,
        )?;
        values.push(value)?;
        done = next;
    }
    Ok(values)
}
