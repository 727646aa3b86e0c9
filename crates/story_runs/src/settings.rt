//! By what the gateway of a story goes.

ghost use Rattle.std.specs.Prelude.{IfOk};
ghost use Rattle.ask_model.specs.Views.{rules_of};
ghost use Rattle.story_runs.specs.Steps.{AreStoryRules};

use ask_model::Settings;
use media_map::{Policy, Routes};
use std::alloc::{AllocError, Global};
use three_parties::device_peer;
use uri_map::{Directory, Text, Texts};

/// The base `/hc/`, and the device as s.example.com (or by its address). Nothing is observed, and
/// no body is transformed.
pub(crate) fn settings(alloc: Global) -> Result<Settings, AllocError>
    ensures { IfOk result (λ s. AreStoryRules (rules_of s)) }
{
    let mut directory = Directory::new(alloc, true);
    directory.add("s.example.com", device_peer().address)?;
    Ok(Settings {
        base: Text::copy_of(alloc, "/hc/")?,
        directory,
        observed: Texts::new(alloc),
        policy: Policy::default(),
        routes: Routes::new(alloc),
    })
}
