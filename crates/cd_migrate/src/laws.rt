//! What holds of all contents, as contracts of functions that do nothing.
ghost use Rattle.cd_migrate.specs.Worlds.{KeepsTheWorld, GivesTheImage};

use cd_cell::Hash32;

/// After any number of rewritten records the contents are still those of the same world.
pub fn a_migration_keeps_the_world<H: Hash32>()
    ensures { KeepsTheWorld H.digest_of }
{}

/// Once all are rewritten, a world's contents are its image.
pub fn a_whole_migration_gives_the_image<H: Hash32>()
    ensures { GivesTheImage H.digest_of }
{}
