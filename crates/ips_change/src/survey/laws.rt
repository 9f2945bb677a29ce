//! What a survey found, as rows of a request.

ghost use Rattle.std.specs.Prelude.{◌≡◌, ℕ, List, map};
ghost use Rattle.ips_meaning.specs.declared.entry.Entry.{Entry};
ghost use Rattle.ips_after.specs.Request.{Request};
ghost use Rattle.ips_change.specs.wanted.Wanted.{want_of};
ghost use Rattle.ips_change.specs.declared.survey.row.Row.{Row};
ghost use Rattle.ips_change.specs.survey.Rows.{AreRows, row_pair};
ghost use Rattle.ips_change.specs.survey.Tables.{AreRowsOf};

/// The rows of a survey are those of each request from and to what it surveyed.
pub fn surveyed_rows_are_of_the_request()
    ensures { (r : Request) (old new : List (List ℕ × Entry)) (rows : List Row) → r.old ≡ want_of old → r.new ≡ want_of new → AreRows old new (map row_pair rows) → AreRowsOf r rows }
{}
