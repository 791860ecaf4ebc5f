//! The checker: it keeps a manifest, and scans every piece on it.
ghost use Rattle.mail_manifest.specs.Held.{listing_in};
ghost use Rattle.mail_manifest.specs.Waits.{IsWaiting, waiting_prop};

use crate::answer::Answer;
use crate::manifest::Manifest;

/// Who keeps the manifest that was opened last, and checks it.
#[derive(Drop)]
pub struct Checker {
    pub(crate) manifest: Option<Manifest>,
    pub(crate) said: Answer,
    ghost waits: { IsWaiting (listing_in manifest) said } by { waiting_prop (listing_in manifest) said },
}
