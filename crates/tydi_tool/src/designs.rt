//! How the text of a project is read as the heads of a trace between two leaf ports of a design.

ghost use Rattle.std.specs.Prelude.{◌≡◌, ℕ, Decides, IfOk, false, Ok, None, Some, map};
ghost use Rattle.std.specs.List.{position};
ghost use Rattle.std.specs.Option.{option_copied};
ghost use Rattle.til_resolve.specs.Paths.{is_same_path};
ghost use Rattle.til_resolve.specs.PlainProject.{plain_port, plain_project, plain_streamlet};
ghost use Rattle.til_resolve.specs.PortTypes.{IsPortType};
ghost use Rattle.til_resolve.specs.SoundProject.{IsSoundProject};
ghost use Rattle.link_check.specs.Chains.{LeadsToSink};
ghost use Rattle.link_check.specs.Checked.{AreNets, linked};
ghost use Rattle.link_check.specs.Compatible.{Compatible};
ghost use Rattle.type_split.specs.Streams.{clash_of};
ghost use Rattle.tydi_tool.specs.Designs as spec;
ghost use Rattle.tydi_tool.specs.Designs.{
  ClashRead,
  FindsHeads,
  HasNoClash,
  HeadsByNets,
  HeadsOfStreams,
  HeadsOfTypes,
  HeadsUnder,
  ReadsDesign,
  design_words,
  leaf_at,
  no_path,
  no_streamlet,
  top_at,
};
ghost use Rattle.tydi_tool.specs.Reading.{IsRefusedBy, ReadsAs};

use crate::answer::Reply;
use crate::gather::TextReader;
use crate::link::unlinked;
use crate::ports::split_apart;
use crate::projects::ProjectText;
use crate::refusal::{Detail, refused};
use carried_values::compatible_types_are_one;
use link_check::{
    EndHeads, LeafPort, Nets, chains_end_in_one_sink, check, compatible_ports_carry, heads_between,
};
use std::alloc::Global;
use til_resolve::{Port, Project, Streamlet};
use tydi_base::{List, Memory, Name, Path, Text, TryClone};
use type_split::Split;

/// The words of two leaf ports of a design. It reads the text of its project as the heads of a trace between them.
#[derive(Clone, Copy, Drop)]
pub(crate) struct DesignText<'a> {
    /// The file of the project.
    pub(crate) project: &'a Text,
    /// The design, as `a::t`.
    pub(crate) top: &'a Text,
    /// The leaf source, as `i.j.p`.
    pub(crate) from: &'a Text,
    /// The leaf sink, as `i.j.p`.
    pub(crate) to: &'a Text,
}

impl<'a> TextReader<EndHeads> for DesignText<'a> {
    ghost reads = { λ text. ReadsDesign (design_words text) };

    fn read(&self, alloc: Global, bytes: &[u8]) -> Result<EndHeads, Reply> {
        let text = ProjectText { word: self.project };
        match text.read(alloc, bytes) {
            Ok(project) => heads_in(alloc, self, &project),
            Err(reply) => Err(reply),
        }
    }
}

/// The heads between the ports that the words name in a project.
fn heads_in(alloc: Global, words: &DesignText<'_>, project: &Project) -> Result<EndHeads, Reply>
    requires { IsSoundProject (plain_project project.now) }
    ensures { ReadsAs (FindsHeads (design_words words.now) (plain_project project.now)) result }
{
    match top_of(alloc, project, words.top) {
        Ok(Some(top)) => heads_under(alloc, words, project, top),
        Ok(None) => Err(no_streamlet(alloc, words.top)),
        Err(Memory) => Err(Reply::Memory),
    }
}

/// The reply to a word that names no streamlet.
fn no_streamlet(alloc: Global, top: &Text) -> Reply
    ensures { IsRefusedBy (Some (no_streamlet top.now)) result }
{
    refused(alloc, "NoStreamlet", &[Detail::Word(top)])
}

/// The number of the streamlet that a word names.
fn top_of(alloc: Global, project: &Project, top: &Text) -> Result<Option<u32>, Memory>
    ensures { IfOk result (λ number. number ≡ top_at (plain_project project.now).streamlets top.now) }
{
    match Path::read(alloc, top.as_bytes(), true)? {
        None => Ok(None),
        Some(path) => number_of(project.streamlets.as_slice(), &path),
    }
}

/// The number of the first streamlet of a path. `Memory` also where it has over 32 bits: no text has so many.
fn number_of(streamlets: &[Streamlet], path: &Path) -> Result<Option<u32>, Memory>
    ensures { IfOk result (λ number. number ≡ position (λ one. is_same_path one.path path.now) (map plain_streamlet streamlets.now)) }
{
    let Some(number) = place_of(streamlets, path) else {
        return Ok(None);
    };
    match u32::try_from(number) {
        Ok(number) => Ok(Some(number)),
        Err(_) => Err(Memory),
    }
}

/// The place of the first streamlet of a path.
fn place_of(streamlets: &[Streamlet], path: &Path) -> Option<usize>
    ensures { result ≡ position (λ one. is_same_path one.path path.now) (map plain_streamlet streamlets.now) }
{
    streamlets.iter().position(|one| one.path == *path)
}

/// The leaf port under a top that a word names.
fn leaf_of(alloc: Global, top: u32, word: &Text) -> Result<Option<LeafPort>, Memory>
    ensures { IfOk result (λ leaf. leaf ≡ leaf_at top word.now) }
{
    match Path::read_dotted(alloc, word.as_bytes())? {
        None => Ok(None),
        Some(path) => leaf_by(alloc, top, path.names()),
    }
}

/// The leaf port that names spell under a top.
fn leaf_by(alloc: Global, top: u32, names: &[Name]) -> Result<Option<LeafPort>, Memory>
    ensures { IfOk result (λ leaf. leaf ≡ spec.leaf_by top names.now) }
{
    let Some((port, outer)) = names.split_last() else {
        return Ok(None);
    };
    let port = port.try_clone(alloc)?;
    let instances = copies(alloc, outer)?;
    Ok(Some(LeafPort {
        top,
        instances,
        port,
    }))
}

/// Copies of names.
fn copies(alloc: Global, names: &[Name]) -> Result<List<Name>, Memory>
    ensures { IfOk result (λ all. all ≡ names.now) }
{
    let mut all = List::new(alloc);
    'names: for name in names {
        all.push(name.try_clone(alloc)?)?;
    }
    Ok(all)
}

/// The heads between the ports that the words name under a top.
fn heads_under(
    alloc: Global,
    words: &DesignText<'_>,
    project: &Project,
    top: u32,
) -> Result<EndHeads, Reply>
    requires { IsSoundProject (plain_project project.now) }
    ensures { ReadsAs (HeadsUnder (design_words words.now) (plain_project project.now).streamlets top) result }
{
    match leaf_of(alloc, top, words.from) {
        Ok(from) => heads_apart(alloc, words, project, top, from.as_ref()),
        Err(Memory) => Err(Reply::Memory),
    }
}

/// The same, with the port where the streams come from.
fn heads_apart(
    alloc: Global,
    words: &DesignText<'_>,
    project: &Project,
    top: u32,
    from: Option<&LeafPort>,
) -> Result<EndHeads, Reply>
    requires sound { IsSoundProject (plain_project project.now) }
    requires from { option_copied from ≡ leaf_at top (design_words words.now).from }
    ensures { ReadsAs (HeadsUnder (design_words words.now) (plain_project project.now).streamlets top) result }
{
    match check_apart(alloc, project, from) {
        Ok(()) => heads_linked(alloc, words, project, top, from),
        Err(reply) => Err(reply),
    }
}

/// Whether no two physical streams clash at a leaf source. The error is the reply where two do.
fn check_apart(alloc: Global, project: &Project, leaf: Option<&LeafPort>) -> Result<(), Reply>
    requires { IsSoundProject (plain_project project.now) }
    ensures { ReadsAs (ClashRead (plain_project project.now).streamlets (option_copied leaf.entry)) result }
{
    let Some(source) = leaf else {
        return Ok(());
    };
    if !source.is_source(project) {
        return Ok(());
    }
    match source.find_port(project) {
        None => Ok(()),
        Some(port) => match split_apart(alloc, &port.ltype) {
            Ok(_) => Ok(()),
            Err(reply) => Err(reply),
        },
    }
}

/// The heads between the ports, where no two streams clash.
fn heads_linked(
    alloc: Global,
    words: &DesignText<'_>,
    project: &Project,
    top: u32,
    from: Option<&LeafPort>,
) -> Result<EndHeads, Reply>
    requires sound { IsSoundProject (plain_project project.now) }
    requires from { option_copied from ≡ leaf_at top (design_words words.now).from }
    requires apart { HasNoClash (plain_project project.now).streamlets (option_copied from) }
    ensures { ReadsAs (HeadsByNets (design_words words.now) (plain_project project.now).streamlets top (linked (plain_project project.now).streamlets)) result }
{
    match check(alloc, project) {
        Ok(nets) => match leaf_of(alloc, top, words.to) {
            Ok(to) => heads_along(alloc, words, project, &nets, from, to.as_ref()),
            Err(Memory) => Err(Reply::Memory),
        },
        Err(fault) => Err(unlinked(alloc, words.project, fault)),
    }
}

/// The heads between two ports, where the nets lead from the one to the other.
fn heads_along(
    alloc: Global,
    words: &DesignText<'_>,
    project: &Project,
    nets: &Nets,
    from: Option<&LeafPort>,
    to: Option<&LeafPort>,
) -> Result<EndHeads, Reply>
    requires sound { IsSoundProject (plain_project project.now) }
    requires apart { HasNoClash (plain_project project.now).streamlets (option_copied from) }
    requires nets { AreNets (plain_project project.now).streamlets nets.now }
    ensures { (top : ℕ) → option_copied from.entry ≡ leaf_at top (design_words words.now).from
        → option_copied to.entry ≡ leaf_at top (design_words words.now).to
        → ReadsAs (HeadsByNets (design_words words.now) (plain_project project.now).streamlets top (Ok nets.now)) result }
{
    let (Some(source), Some(sink)) = (from, to) else {
        return Err(no_path(alloc, words));
    };
    match is_joined(alloc, project, nets, source, sink) {
        Ok(true) => heads_of(alloc, project, nets, source, sink),
        Ok(false) => Err(no_path(alloc, words)),
        Err(Memory) => Err(Reply::Memory),
    }
}

/// The reply to ports of which the nets lead from none to the other.
fn no_path(alloc: Global, words: &DesignText<'_>) -> Reply
    ensures { IsRefusedBy (Some (no_path (design_words words.now).from (design_words words.now).to)) result }
{
    let details = [Detail::Word(words.from), Detail::Word(words.to)];
    refused(alloc, "NoPath", &details)
}

/// Whether the nets of a project lead from the one port to the other.
fn is_joined(
    alloc: Global,
    project: &Project,
    nets: &Nets,
    source: &LeafPort,
    sink: &LeafPort,
) -> Result<bool, Memory>
    requires { AreNets (plain_project project.now).streamlets nets.now }
    ensures { IfOk result (λ joined. Decides joined (LeadsToSink (plain_project project.now).streamlets nets.now.impls source.now sink.now)) }
{
    chains_end_in_one_sink();
    match nets.sink_of(alloc, project, source)? {
        None => Ok(false),
        Some(end) => Ok(is_same_leaf(&end, sink)),
    }
}

/// Two leaf ports are one.
fn is_same_leaf(one: &LeafPort, other: &LeafPort) -> bool
    ensures { result ≡ spec.is_same_leaf one.now other.now }
{
    one.top == other.top && one.instances == other.instances && one.port == other.port
}

/// The heads between a leaf source and the leaf sink to which the nets lead from it.
fn heads_of(
    alloc: Global,
    project: &Project,
    nets: &Nets,
    source: &LeafPort,
    sink: &LeafPort,
) -> Result<EndHeads, Reply>
    requires sound { IsSoundProject (plain_project project.now) }
    requires apart { HasNoClash (plain_project project.now).streamlets (Some source.now) }
    requires nets { AreNets (plain_project project.now).streamlets nets.now }
    requires leads { LeadsToSink (plain_project project.now).streamlets nets.now.impls source.now sink.now }
    ensures { ReadsAs (spec.HeadsBetween (plain_project project.now).streamlets nets.now (Some source.now) (Some sink.now)) result }
{
    compatible_ports_carry();
    let (Some(one), Some(other)) = (source.find_port(project), sink.find_port(project)) else {
        unreachable!()
    };
    heads_of_ports(alloc, one, other)
}

/// The heads between two ports of compatible types, of which the first has no two streams that clash.
fn heads_of_ports(alloc: Global, one: &Port, other: &Port) -> Result<EndHeads, Reply>
    requires one { IsPortType (plain_port one.now).ltype }
    requires other { IsPortType (plain_port other.now).ltype }
    requires compatible { Compatible false (plain_port one.now).ltype (plain_port other.now).ltype }
    requires apart { clash_of (plain_port one.now).ltype ≡ None }
    ensures { ReadsAs (HeadsOfTypes (plain_port one.now).ltype (plain_port other.now).ltype) result }
{
    compatible_types_are_one();
    match split_apart(alloc, &one.ltype) {
        Ok(source) => match split_apart(alloc, &other.ltype) {
            Ok(sink) => heads_of_splits(alloc, &source, &sink),
            Err(reply) => Err(reply),
        },
        Err(reply) => Err(reply),
    }
}

/// The heads between two ports that were split.
fn heads_of_splits(alloc: Global, source: &Split<'_>, sink: &Split<'_>) -> Result<EndHeads, Reply>
    ensures { ReadsAs (HeadsOfStreams source.now.streams sink.now.streams) result }
{
    match heads_between(alloc, source.streams.as_slice(), sink.streams.as_slice()) {
        Ok(heads) => Ok(heads),
        Err(Memory) => Err(Reply::Memory),
    }
}
