//! The laws of the errors of trees, of their projects, and of the types of ports.

ghost use Rattle.til_resolve.specs.Laws.{
  FoundPortsAreValid,
  OneFaultIsTold,
  PortTypesAreValid,
  PortsAreFound,
  ProjectsAreOfTrees,
  SomeFaultIsTold,
  SoundProjects,
  StreamletsAreFound,
  TestsAreFound,
};

/// The law of errors: the tree of a text has at most one reported error, and each tree with an error has one.
pub fn faults_are_told()
    ensures one { OneFaultIsTold }
    ensures some { SomeFaultIsTold }
{}

/// The law of projects: the plain data of a project is that of its tree, and has the ports, the streamlets and the tests that the
/// project has.
pub fn projects_are_plain()
    ensures tree { ProjectsAreOfTrees }
    ensures ports { PortsAreFound }
    ensures streamlets { StreamletsAreFound }
    ensures tests { TestsAreFound }
{}

/// The law of projects of trees without errors: types of ports are valid, tests drive ports that are there, instances are of
/// streamlets that are there, containment ends, paths are distinct, and the names inside each streamlet are apart.
pub fn projects_are_sound()
    ensures { SoundProjects }
{}

/// The law of ports: in a tree without errors the types of ports are valid, and have at most 65,536 nodes.
pub fn port_types_are_valid()
    ensures each { PortTypesAreValid }
    ensures found { FoundPortsAreValid }
{}
