//! Theorems on the application, as contracts of functions with empty bodies.

ghost use Rattle.std.specs.Prelude.{List};
ghost use Rattle.coap_server_engine.specs.values.Exchanges.{Exchange};
ghost use Rattle.directory_core.specs.Replies.{DirectoryValue};
ghost use Rattle.directory_core.specs.Endpoints.{ReachedDirectory};
ghost use Rattle.program_directory.specs.Answers.{Answers};

/// States that requests reach the directory of an application after any exchanges. So the theorems of
/// `directory_core::laws` hold for it.
#[tactic(auto, using(crate::proofs::AnswerLemmas::reached))]
pub fn directories_are_reached()
    ensures { (exchanges : List Exchange) (d : DirectoryValue) → Answers exchanges d → ReachedDirectory d }
{}
