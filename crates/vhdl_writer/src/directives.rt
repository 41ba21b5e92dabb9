//! The directives in front of all modules of a design in Verilog, and behind them.

ghost use Rattle.std.specs.Prelude.{◌≡◌, []};
ghost use Rattle.vhdl_writer.specs.Designs as spec;

use vhdl_text::Language;

/// The directive in front of all modules.
pub(crate) fn first_directive() -> &'static str
    ensures { result.now ≡ spec.first_directive }
{
    "`default_nettype none\n"
}

/// The directive behind all modules.
pub(crate) fn last_directive() -> &'static str
    ensures { result.now ≡ spec.last_directive }
{
    "`default_nettype wire\n"
}

/// Whether the texts of a language stand between directives.
pub(crate) fn has_directives(language: Language) -> bool
    ensures { result ≡ spec.has_directives language }
{
    match language {
        Language::Vhdl => false,
        Language::Verilog => true,
    }
}

/// How many bytes a design without a streamlet has.
pub(crate) fn directives_length(language: Language) -> u64
    ensures { result ≡ spec.length_of language [] }
{
    match language {
        Language::Vhdl => 0,
        Language::Verilog => {
            let first = first_directive().len() as u64;
            let last = last_directive().len() as u64;
            first.saturating_add(last)
        }
    }
}
