//! Laws of what packages deliver, each the contract of a function that does nothing.

ghost use Rattle.std.specs.Prelude.{◌≡◌, ℕ, List};
ghost use Rattle.ips_manifest.specs.declared.package.Package.{Package};
ghost use Rattle.ips_filter.specs.Settings.{Set};
ghost use Rattle.ips_books.specs.Accounts.{Accounts};
ghost use Rattle.ips_state.specs.State.{Recorded};
ghost use Rattle.ips_due.specs.Due.{DueFile};
ghost use Rattle.ips_due.specs.Delivered.{Delivered, Legacy, License, request_due};
ghost use Rattle.ips_delivered.specs.delivered.Delivering.{PackagesDeliver};
ghost use Rattle.ips_delivered.specs.delivered.Named.{DeliverNamed};

/// Packages deliver one list of licenses and one of legacy packages, whoever owns their files.
pub fn names_are_one()
    ensures delivered { (books : Accounts) (settings : Set) (packages : List Package) (d : Delivered) → PackagesDeliver books settings packages d → DeliverNamed settings packages d.licenses d.legacy }
    ensures licenses { (settings : Set) (packages : List Package) (a b : List License) (g h : List Legacy) → DeliverNamed settings packages a g → DeliverNamed settings packages b h → a ≡ b }
    ensures legacy { (settings : Set) (packages : List Package) (a b : List License) (g h : List Legacy) → DeliverNamed settings packages a g → DeliverNamed settings packages b h → g ≡ h }
{}

/// Of what the old packages deliver just the licenses and the legacy packages matter to what a request makes due.
pub fn owners_are_apart()
    ensures { (accounts : List DueFile) (old new : Recorded) (was other is : Delivered) → was.licenses ≡ other.licenses → was.legacy ≡ other.legacy → request_due accounts old new was is ≡ request_due accounts old new other is }
{}
