// Laws of the definitions that the traits cite.

ghost use Rattle.std.specs.Prelude.{ℕ, List};
ghost use Rattle.lava_streams.specs.Files.{Files, names_in};
ghost use Rattle.lava_streams.specs.Folders.{listing_of};
ghost use Rattle.lava_streams.specs.Listings.{Lists};

/// What a folder's files give for a directory is a listing of the names that their paths have directly in it: in byte order, each once. It is `Absent` only where there is none.
pub fn listings_are_in_order()
    ensures { (files : Files) (dir : List ℕ) → Lists (names_in files dir) (listing_of files dir) }
{}
