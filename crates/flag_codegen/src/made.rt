// Which codes are made in their registers.
ghost use Rattle.std.specs.Prelude.{◌≡◌};
ghost use Rattle.micro_ops.specs.Sources.{is_written};
ghost use Rattle.flag_codegen.specs.Made.{is_made};

use code_runs::rule_of;
use micro_ops::CodeSource;

fn is_written(source: CodeSource) -> bool
    ensures { result ≡ is_written source }
{
    !matches!(source, CodeSource::Kept)
}

/// Whether a code is made in its register: it is written, and is live or has no rule.
pub(crate) fn is_made(source: CodeSource, live: bool) -> bool
    ensures { result ≡ is_made source live }
{
    is_written(source) && (live || rule_of(source).is_ready())
}
