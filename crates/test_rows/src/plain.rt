//! Layers whose rows need no value.

use crate::layer::Layer;
use crate::row_line::RowLine;
use crate::{command_line, config, print, run, script, target, wire};
use std::alloc::{AllocError, Global};

/// Layer whose rows need no value.
#[derive(Clone, Copy)]
pub(crate) enum Plain {
    /// Messages.
    Wire,
    /// Limits and configurations.
    Limits,
    /// Lines of text.
    Print,
    /// Texts of scripts.
    Script,
    /// Targets.
    Target,
    /// Command lines.
    Words,
    /// Runs of a client.
    Run,
}

impl Layer for Plain {
    /// Returns the layer of this name.
    fn opened(_alloc: Global, name: &str) -> Option<Result<Plain, AllocError>> {
        let plain = match name {
            "wire" => Plain::Wire,
            "limits" => Plain::Limits,
            "print" => Plain::Print,
            "script" => Plain::Script,
            "target" => Plain::Target,
            "words" => Plain::Words,
            "run" => Plain::Run,
            _ => return None,
        };
        Some(Ok(plain))
    }

    fn play(&mut self, alloc: Global, event: &str, bytes: &mut Vec<u8>, results: &mut RowLine) {
        match self {
            Plain::Wire => wire::play(event, bytes, results),
            Plain::Limits => config::play(event, results),
            Plain::Print => print::play(event, bytes, results),
            Plain::Script => script::play(alloc, event, bytes, results),
            Plain::Target => target::play(alloc, event, results),
            Plain::Words => command_line::play(alloc, event, results),
            Plain::Run => run::play(alloc, event, bytes, results),
        }
    }
}
