//! Ports whose types are not split.

ghost use Rattle.std.specs.Prelude.{◌≡◌, map, IfOk};
ghost use Rattle.til_resolve.specs.PlainProject.{HasPortTypes, plain_port, plain_project, plain_streamlet};
ghost use Rattle.til_resolve.specs.PortTypes.{IsPortType};
ghost use Rattle.vhdl_writer.specs.Clashing.{HavePortTypes};
ghost use Rattle.vhdl_writer.specs.PortClashes as spec;

use std::alloc::Global;
use til_resolve::{Port, Project};
use tydi_base::{Memory, Name, Path, TryClone};
use type_split::{SplitFault, split_type};

/// A port of which two physical streams have one path.
#[derive(Debug, Drop)]
pub struct Clash {
    /// The path of the port's streamlet.
    pub streamlet: Path,
    pub port: Name,
    /// The path of the second of the first two such streams.
    pub path: Path,
}

/// The first port in text order of which two physical streams have one path. None exactly where no port has such. Memory comes where there
/// is none for the search.
pub fn first_clash(alloc: Global, project: &Project) -> Result<Option<Clash>, Memory>
    requires { HasPortTypes (plain_project project.now) }
    ensures { IfOk result (λ clash. clash ≡ spec.first_clash (plain_project project.now).streamlets) }
{
    'streamlets: for streamlet in project.streamlets.as_slice() {
        if let Some(clash) = clash_in(alloc, &streamlet.path, streamlet.ports.as_slice())? {
            return Ok(Some(clash));
        }
    }
    Ok(None)
}

/// The first of these ports of a streamlet of this path that has such streams.
fn clash_in(alloc: Global, streamlet: &Path, ports: &[Port]) -> Result<Option<Clash>, Memory>
    requires { HavePortTypes (map plain_port ports.now) }
    ensures { IfOk result (λ clash. clash ≡ spec.clash_in streamlet.now (map plain_port ports.now)) }
{
    'ports: for port in ports {
        if let Some(clash) = clash_at(alloc, streamlet, port)? {
            return Ok(Some(clash));
        }
    }
    Ok(None)
}

/// The clash of a port of a streamlet of this path.
fn clash_at(alloc: Global, streamlet: &Path, port: &Port) -> Result<Option<Clash>, Memory>
    requires { IsPortType (plain_port port.now).ltype }
    ensures { IfOk result (λ clash. clash ≡ spec.clash_at streamlet.now (plain_port port.now)) }
{
    match split_type(alloc, &port.ltype) {
        Ok(_) => Ok(None),
        Err(SplitFault::NameClash(path)) => Ok(Some(Clash {
            streamlet: streamlet.try_clone(alloc)?,
            port: port.name.try_clone(alloc)?,
            path,
        })),
        Err(SplitFault::Memory) => Err(Memory),
    }
}
