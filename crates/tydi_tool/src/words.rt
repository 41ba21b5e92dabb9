ghost use Rattle.std.specs.Prelude.{◌≡◌, ◌≤◌, ◌<◌, ◌&&◌, IfSome, option_map};
ghost use Rattle.std.specs.List.{list_all};
ghost use Rattle.tydi_base.specs.Name.{is_name};
ghost use Rattle.tydi_base.specs.Pieces.{pieces_of};
ghost use Rattle.vhdl_text.specs.declared.language.Language.TheVariants as languages;
ghost use Rattle.tydi_tool.specs.Words.{
  request_of,
  request_from,
  is_word,
  check_request,
  read_request,
  split_request,
  drive_request,
  sim_request,
  link_request,
  carry_request,
  decode_request,
  design_request,
  compare_request,
  expect_request,
  watch_request,
  bench_request,
  testbench_request,
  vcd_request,
  is_scope,
  gen_request,
  job_request,
  number_word,
};

use tydi_base::{Text, first_piece, is_name, read_decimal};

/// The greatest seed of a job.
const MOST_SEED: u32 = 65_535;

/// The greatest count of a job.
const MOST_COUNT: u32 = 100_000;

/// A command, with the words that belong to it.
pub enum Command<'a> {
    /// Check a trace by rules 1 to 10.
    Check {
        /// The file of the trace.
        trace: &'a Text,
    },
    /// Write a project in its canonical text.
    Read {
        /// The file of the project.
        project: &'a Text,
    },
    /// Write the physical streams of a port.
    Split {
        /// The file of the project.
        project: &'a Text,
        /// The port, as `a::b::s.p`.
        port: &'a Text,
    },
    /// Write the trace in which a value drives a port by a plan.
    Drive {
        /// The file of the project.
        project: &'a Text,
        /// The port, as `a::b::s.p`.
        port: &'a Text,
        /// The file of the value.
        value: &'a Text,
        /// The file of the plan.
        plan: &'a Text,
    },
    /// Write the value that a trace of a port carries.
    Decode {
        /// The file of the project.
        project: &'a Text,
        /// The port, as `a::b::s.p`.
        port: &'a Text,
        /// The file of the trace.
        trace: &'a Text,
    },
    /// Write the trace of a testbench by its meaning.
    Sim {
        /// The file of the testbench.
        bench: &'a Text,
        /// The file of the run.
        run: &'a Text,
    },
    /// Check the links of a project, and write its nets.
    Link {
        /// The file of the project.
        project: &'a Text,
    },
    /// Write the trace that arrives at the other end of a chain of nets.
    Carry {
        /// The file of the project.
        project: &'a Text,
        /// The design, as `a::t`.
        top: &'a Text,
        /// The leaf source, as `i.j.p`.
        from: &'a Text,
        /// The leaf sink, as `i.j.p`.
        to: &'a Text,
        /// The file of the trace.
        trace: &'a Text,
    },
    /// Write the entities and architectures of a project in VHDL.
    Vhdl {
        /// The file of the project.
        project: &'a Text,
    },
    /// Write the same entities and architectures as modules in Verilog.
    Verilog {
        /// The file of the project.
        project: &'a Text,
    },
    /// Write the testbench in which a value drives a port by a plan.
    Bench {
        /// The file of the project.
        project: &'a Text,
        /// The port, as `a::b::s.p`.
        port: &'a Text,
        /// The file of the value.
        value: &'a Text,
        /// The file of the plan.
        plan: &'a Text,
    },
    /// Write the testbench of a declared test.
    Testbench {
        /// The file of the project.
        project: &'a Text,
        /// The test, as `a::t`.
        test: &'a Text,
    },
    /// Write the trace of a port that a value change dump shows.
    Vcd {
        /// The file of the project.
        project: &'a Text,
        /// The port, as `a::b::s.p`.
        port: &'a Text,
        /// The scope of its signals, as `top.bench`.
        scope: &'a Text,
        /// The file of the dump.
        file: &'a Text,
    },
    /// Compare what a trace of a port carries with a value.
    Compare {
        /// The file of the project.
        project: &'a Text,
        /// The port, as `a::b::s.p`.
        port: &'a Text,
        /// The file of the value.
        value: &'a Text,
        /// The file of the trace.
        trace: &'a Text,
    },
    /// Write the monitor that watches a port for a value.
    Expect {
        /// The file of the project.
        project: &'a Text,
        /// The port, as `a::b::s.p`.
        port: &'a Text,
        /// The file of the value.
        value: &'a Text,
    },
    /// Run a monitor over a trace by its meaning.
    Watch {
        /// The file of the monitor.
        monitor: &'a Text,
        /// The file of the trace.
        trace: &'a Text,
    },
    /// Write the summary of a job that two numbers make.
    Gen {
        /// The file of the project.
        project: &'a Text,
        /// The port, as `a::b::s.p`.
        port: &'a Text,
        /// The seed.
        seed: u16,
        /// How many members each root has, at most 100,000.
        count: u32,
    },
}

/// The command that the words after the program's name spell. None exactly where they spell none. It takes no memory.
pub fn words_of<'a>(words: &'a [Text]) -> Option<Command<'a>>
    ensures { option_map request_from result ≡ request_of words.now }
{
    let (command, rest) = words.split_first()?;
    if command.as_str() == "check" {
        check_of(rest)
    } else if command.as_str() == "read" {
        read_of(rest)
    } else if command.as_str() == "split" {
        split_of(rest)
    } else if command.as_str() == "drive" {
        drive_of(rest)
    } else if command.as_str() == "sim" {
        sim_of(rest)
    } else if command.as_str() == "link" {
        link_of(rest)
    } else if command.as_str() == "decode" {
        decode_of(rest)
    } else if command.as_str() == "carry" {
        carry_of(rest)
    } else if command.as_str() == "vhdl" {
        vhdl_of(rest)
    } else if command.as_str() == "verilog" {
        verilog_of(rest)
    } else if command.as_str() == "bench" {
        bench_of(rest)
    } else if command.as_str() == "testbench" {
        testbench_of(rest)
    } else if command.as_str() == "vcd" {
        vcd_of(rest)
    } else if command.as_str() == "gen" {
        gen_of(rest)
    } else if command.as_str() == "compare" {
        compare_of(rest)
    } else if command.as_str() == "expect" {
        expect_of(rest)
    } else if command.as_str() == "watch" {
        watch_of(rest)
    } else {
        None
    }
}

fn check_of<'a>(words: &'a [Text]) -> Option<Command<'a>>
    ensures { option_map request_from result ≡ check_request words.now }
{
    match words {
        [trace] if is_word(trace) => Some(Command::Check { trace }),
        _ => None,
    }
}

fn read_of<'a>(words: &'a [Text]) -> Option<Command<'a>>
    ensures { option_map request_from result ≡ read_request words.now }
{
    match words {
        [project] if is_word(project) => Some(Command::Read { project }),
        _ => None,
    }
}

fn split_of<'a>(words: &'a [Text]) -> Option<Command<'a>>
    ensures { option_map request_from result ≡ split_request words.now }
{
    match words {
        [project, port] if is_word(project) && is_word(port) => {
            Some(Command::Split { project, port })
        }
        _ => None,
    }
}

fn drive_of<'a>(words: &'a [Text]) -> Option<Command<'a>>
    ensures { option_map request_from result ≡ drive_request words.now }
{
    match words {
        [project, port, value, plan] if are_words(project, port) && are_words(value, plan) => {
            Some(Command::Drive {
                project,
                port,
                value,
                plan,
            })
        }
        _ => None,
    }
}

fn decode_of<'a>(words: &'a [Text]) -> Option<Command<'a>>
    ensures { option_map request_from result ≡ decode_request words.now }
{
    match words {
        [project, port, trace] if are_words(project, port) && is_word(trace) => {
            Some(Command::Decode {
                project,
                port,
                trace,
            })
        }
        _ => None,
    }
}

fn sim_of<'a>(words: &'a [Text]) -> Option<Command<'a>>
    ensures { option_map request_from result ≡ sim_request words.now }
{
    match words {
        [bench, run] if is_word(bench) && is_word(run) => Some(Command::Sim { bench, run }),
        _ => None,
    }
}

fn link_of<'a>(words: &'a [Text]) -> Option<Command<'a>>
    ensures { option_map request_from result ≡ link_request words.now }
{
    match words {
        [project] if is_word(project) => Some(Command::Link { project }),
        _ => None,
    }
}

fn carry_of<'a>(words: &'a [Text]) -> Option<Command<'a>>
    ensures { option_map request_from result ≡ carry_request words.now }
{
    match words {
        [project, top, from, to, trace]
            if is_word(project) && are_words(top, from) && are_words(to, trace) => {
            Some(Command::Carry {
                project,
                top,
                from,
                to,
                trace,
            })
        }
        _ => None,
    }
}

fn vhdl_of<'a>(words: &'a [Text]) -> Option<Command<'a>>
    ensures { option_map request_from result ≡ design_request languages.Vhdl words.now }
{
    match words {
        [project] if is_word(project) => Some(Command::Vhdl { project }),
        _ => None,
    }
}

fn verilog_of<'a>(words: &'a [Text]) -> Option<Command<'a>>
    ensures { option_map request_from result ≡ design_request languages.Verilog words.now }
{
    match words {
        [project] if is_word(project) => Some(Command::Verilog { project }),
        _ => None,
    }
}

fn bench_of<'a>(words: &'a [Text]) -> Option<Command<'a>>
    ensures { option_map request_from result ≡ bench_request words.now }
{
    match words {
        [project, port, value, plan] if are_words(project, port) && are_words(value, plan) => {
            Some(Command::Bench {
                project,
                port,
                value,
                plan,
            })
        }
        _ => None,
    }
}

fn testbench_of<'a>(words: &'a [Text]) -> Option<Command<'a>>
    ensures { option_map request_from result ≡ testbench_request words.now }
{
    match words {
        [project, test] if is_word(project) && is_word(test) => {
            Some(Command::Testbench { project, test })
        }
        _ => None,
    }
}

fn vcd_of<'a>(words: &'a [Text]) -> Option<Command<'a>>
    ensures { option_map request_from result ≡ vcd_request words.now }
{
    match words {
        [project, port, scope, file]
            if are_words(project, port) && is_scope(scope) && is_word(file) => {
            Some(Command::Vcd {
                project,
                port,
                scope,
                file,
            })
        }
        _ => None,
    }
}

fn compare_of<'a>(words: &'a [Text]) -> Option<Command<'a>>
    ensures { option_map request_from result ≡ compare_request words.now }
{
    match words {
        [project, port, value, trace] if are_words(project, port) && are_words(value, trace) => {
            Some(Command::Compare {
                project,
                port,
                value,
                trace,
            })
        }
        _ => None,
    }
}

fn expect_of<'a>(words: &'a [Text]) -> Option<Command<'a>>
    ensures { option_map request_from result ≡ expect_request words.now }
{
    match words {
        [project, port, value] if are_words(project, port) && is_word(value) => {
            Some(Command::Expect {
                project,
                port,
                value,
            })
        }
        _ => None,
    }
}

fn watch_of<'a>(words: &'a [Text]) -> Option<Command<'a>>
    ensures { option_map request_from result ≡ watch_request words.now }
{
    match words {
        [monitor, trace] if is_word(monitor) && is_word(trace) => {
            Some(Command::Watch { monitor, trace })
        }
        _ => None,
    }
}

fn gen_of<'a>(words: &'a [Text]) -> Option<Command<'a>>
    ensures { option_map request_from result ≡ gen_request words.now }
{
    match words {
        [project, port, seed, count] if are_words(project, port) => {
            job_of(
                project,
                port,
                number_of(seed, MOST_SEED),
                number_of(count, MOST_COUNT),
            )
        }
        _ => None,
    }
}

/// The job of a port with a seed and a count. None where one of them is not there.
fn job_of<'a>(
    project: &'a Text,
    port: &'a Text,
    seed: Option<u32>,
    count: Option<u32>,
) -> Option<Command<'a>>
    requires { IfSome seed (λ number. number < 65536) }
    ensures { option_map request_from result ≡ job_request project.now port.now seed count }
{
    match (seed, count) {
        (Some(seed), Some(count)) => Some(Command::Gen {
            project,
            port,
            seed: seed as u16,
            count,
        }),
        _ => None,
    }
}

/// The number that a word spells in decimal, without leading zeros. None exactly where it spells none, or one above the most.
fn number_of(word: &Text, most: u32) -> Option<u32>
    ensures value { result ≡ number_word most word.now }
    ensures few { IfSome result (λ number. number ≤ most) }
{
    match read_decimal(word.as_bytes()) {
        Some(number) if number <= u64::from(most) => Some(number as u32),
        _ => None,
    }
}

fn are_words(one: &Text, other: &Text) -> bool
    ensures { result ≡ (is_word one.now && is_word other.now) }
{
    is_word(one) && is_word(other)
}

/// A word that is not empty and does not begin with `-`.
fn is_word(word: &Text) -> bool
    ensures { result ≡ is_word word.now }
{
    match word.as_bytes() {
        [] | [b'-', ..] => false,
        _ => true,
    }
}

/// A word of names with a point between each two, one at least.
fn is_scope(word: &Text) -> bool
    ensures { result ≡ is_scope word.now }
{
    are_names(word.as_bytes())
}

/// Whether a text is names with a point between each two, one at least.
fn are_names(text: &[u8]) -> bool
    ensures { result ≡ list_all is_name (pieces_of 46 text.now) }
{
    let mut rest = text;
    'names: while let Some((name, more)) = first_piece(rest, b'.') {
        if !is_name(name) {
            return false;
        }
        rest = more;
    }
    is_name(rest)
}
