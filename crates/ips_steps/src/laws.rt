//! Laws of steps, each the contract of a function that does nothing.

ghost use Rattle.std.specs.Prelude.{◌≡◌, ◌≢◌, ℕ, ◌+◌, ◌^◌, ◌<◌, List, [], ◌∷◌, take, drop, slice_get, Bool, false, ◌||◌, IsTrue, IsFalse, Option, Some, None};
ghost use Rattle.ips_text.specs.Ancestry.{covers};
ghost use Rattle.ips_outside.specs.Image.{Image, IsImage, Agrees};
ghost use Rattle.ips_outside.specs.State.{State, MayLeave, ChangedWithin, IsSettled, nowhere, untouched, settled};
ghost use Rattle.ips_steps.specs.Steps.{Step, Stage, laid, all_laid, can_lay, possible, sound, frees, freed, met, all_clear_of, distinct, stage_name, stage_path, stage_of, after, feasible, sets};
ghost use Rattle.ips_steps.specs.Private.{gate_name, mark_front, mark_name, begins, is_private, visible};
ghost use Rattle.ips_steps.specs.Journal.{IsJournal, IsProper, AllProper, allowed};
ghost use Rattle.ips_steps.specs.Outcome.{outcome, all_fit, IsLaidByPath};
ghost use Rattle.ips_steps.specs.Owed.{AreMarks, steps_left, IsReady, IsOpen, Owes, FolderOwes, IsPrivate};

/// What is laid by a name is what the steps mean. On an image in which no content has a further name, a list of a journal that
/// is possible is feasible, and what is seen once it is laid is what the steps say with the contents that stand there.
pub fn laid_by_name()
    ensures { (steps : List Step) (t : Image) → IsImage t → IsJournal steps → IsTrue (possible (stage_of t) steps t)
        → ((n : ℕ) (q : List ℕ) → n < 2 ^ 64 → IsTrue (t.same (stage_path n) q) → q ≡ stage_path n)
        → IsTrue (feasible steps t) × (visible (after steps t) ≡ visible (all_laid (stage_of t) steps t)) }
{}

/// Laying again gives the same image: a sound list of a journal that is feasible on an image is feasible on each image
/// that agrees with it but at and below the paths of its steps other than modes and in the modes that it sets, and leaves the same
/// there.
pub fn laid_again()
    ensures { (steps : List Step) (t u : Image) → IsImage t → IsTrue (allowed steps) → IsTrue (sound steps) → IsTrue (feasible steps t)
        → Agrees (freed steps) (sets steps t) t u → IsTrue (feasible steps u) × (after steps u ≡ after steps t) }
{}

/// The same for images that differ also apart from that, at paths that the list doesn't read; they then differ only there.
pub fn laid_again_apart()
    ensures { (apart : List ℕ → Bool) (stage : Stage) (steps : List Step) (t u : Image) → IsImage t → IsTrue (sound steps)
        → IsTrue (all_clear_of apart steps) → IsTrue (possible stage steps t)
        → Agrees (λ q. freed steps q || apart q) (met stage steps t) t u
        → IsTrue (possible stage steps u) × Agrees apart nowhere (all_laid stage steps t) (all_laid stage steps u) }
{}

/// A list of a journal reads none of the updater's own names but the contents. On images that agree but at paths that a list
/// doesn't read it is possible on both or on neither, and leaves them so; whether it is sound doesn't matter.
pub fn laid_apart()
    ensures each { (apart : List ℕ → Bool) (stage : Stage) (steps : List Step) (t u : Image) → IsTrue (all_clear_of apart steps) → Agrees apart nowhere t u
        → (possible stage steps u ≡ possible stage steps t) × Agrees apart nowhere (all_laid stage steps t) (all_laid stage steps u) }
    ensures own { (apart : List ℕ → Bool) (steps : List Step) (t u : Image) → IsTrue (allowed steps)
        → ((q : List ℕ) → IsTrue (apart q) → IsTrue (is_private q) × IsFalse (covers stage_name q)) → Agrees apart nowhere t u
        → (feasible steps u ≡ feasible steps t) × Agrees apart nowhere (after steps t) (after steps u) × (visible (after steps u) ≡ visible (after steps t)) }
    ensures marks { (steps : List Step) (t u : Image) → IsTrue (allowed steps) → Agrees (begins mark_front) nowhere t u
        → (feasible steps u ≡ feasible steps t) × Agrees (begins mark_front) nowhere (after steps t) (after steps u)
        × (visible (after steps u) ≡ visible (after steps t)) }
{}

/// A sound list without two steps at one path, possible on an image, leaves what it says of each path, and it is
/// possible where each of its steps could be laid on that.
pub fn laid_by_path()
    ensures each { (stage : Stage) (steps : List Step) (t : Image) → IsImage t → IsTrue (sound steps) → IsTrue (distinct steps)
        → IsTrue (possible stage steps t) → IsLaidByPath stage steps t (all_laid stage steps t) }
    ensures whole { (stage : Stage) (steps : List Step) (t : Image) → IsImage t → IsTrue (sound steps) → IsTrue (distinct steps)
        → IsTrue (possible stage steps t) → all_laid stage steps t ≡ outcome stage steps t }
    ensures fits { (stage : Stage) (steps : List Step) (t : Image) → IsImage t → IsTrue (sound steps) → IsTrue (distinct steps)
        → IsTrue (all_fit stage steps (outcome stage steps t)) → IsTrue (possible stage steps t) }
{}

/// A step with proper parts that can be laid leaves a well-formed image well formed, and so does a possible list of them.
pub fn stays_formed()
    ensures step { (stage : Stage) (s : Step) (t : Image) → IsImage t → IsProper s → IsTrue (can_lay stage s t) → IsImage (laid stage s t) }
    ensures list { (stage : Stage) (steps : List Step) (t : Image) → IsImage t → AllProper steps → IsTrue (possible stage steps t)
        → IsImage (all_laid stage steps t) }
    ensures linked { (steps : List Step) (t : Image) → IsImage t → AllProper steps → IsTrue (feasible steps t) → IsImage (after steps t) }
{}

/// A feasible list is laid turn by turn: at its turn each step can be laid on what those before it left, and changes what
/// the list changes. Behind a front the rest is feasible, and leaves what the list leaves.
pub fn laid_turn_by_turn()
    ensures can { (steps : List Step) (k : ℕ) (s : Step) (t : Image) → slice_get steps k ≡ Some s
        → IsTrue (feasible steps t) → IsTrue (feasible (s ∷ []) (after (take k steps) t)) }
    ensures next { (steps : List Step) (k : ℕ) (s : Step) (t : Image) → slice_get steps k ≡ Some s
        → after (take (k + 1) steps) t ≡ after (s ∷ []) (after (take k steps) t) }
    ensures frees { (steps : List Step) (k : ℕ) (s : Step) (q : List ℕ) → slice_get steps k ≡ Some s
        → IsFalse (freed steps q) → IsFalse (frees s q) }
    ensures sets { (steps : List Step) (k : ℕ) (s : Step) (t : Image) (q : List ℕ) → slice_get steps k ≡ Some s
        → IsFalse (sets steps t q) → IsFalse (sets (s ∷ []) (after (take k steps) t) q) }
    ensures rest { (steps : List Step) (n : ℕ) (t : Image) → IsTrue (feasible steps t)
        → IsTrue (feasible (drop n steps) (after (take n steps) t)) }
    ensures whole { (steps : List Step) (n : ℕ) (t : Image) → after (drop n steps) (after (take n steps) t) ≡ after steps t }
    ensures within { (steps : List Step) (t : Image) → Agrees (freed steps) (sets steps t) t (after steps t) }
{}

/// Changes at the updater's own names don't show. Where they alone are touched, each image that a crash may leave looks
/// like the held one; where its gate is closed it owes that image as the old one and as the new one, and so does the
/// folder, where its gate is closed and not touched.
pub fn private_touched()
    ensures seen { (s : State) (left : Image) → IsPrivate s → MayLeave s left → visible left ≡ visible s.held }
    ensures old { (text : List Step → List ℕ) (s : State) (left : Image) (a : Option Image) → IsPrivate s → MayLeave s left
        → left.look gate_name ≡ None → Owes text (visible s.held) a false left }
    ensures new { (text : List Step → List ℕ) (s : State) (left : Image) (b : Image) (due : Bool) → IsPrivate s → MayLeave s left
        → left.look gate_name ≡ None → Owes text b (Some (visible s.held)) due left }
    ensures folder_old { (text : List Step → List ℕ) (s : State) (a : Option Image) → IsPrivate s → s.held.look gate_name ≡ None
        → IsFalse (s.whole gate_name) → FolderOwes text (visible s.held) a false s }
    ensures folder_new { (text : List Step → List ℕ) (s : State) (b : Image) (due : Bool) → IsPrivate s → s.held.look gate_name ≡ None
        → IsFalse (s.whole gate_name) → FolderOwes text b (Some (visible s.held)) due s }
{}

/// Different contents, and different marks, have different files, none of which is below another. What begins as the names of
/// marks do is at or above a mark's name only where it is that name.
pub fn numbered_apart()
    ensures contents { (m n : ℕ) → m < 2 ^ 64 → n < 2 ^ 64 → m ≢ n → IsFalse (covers (stage_path m) (stage_path n)) }
    ensures marks { (m n : ℕ) → m < 2 ^ 64 → n < 2 ^ 64 → m ≢ n → IsFalse (covers (mark_name m) (mark_name n)) }
    ensures one { (p : List ℕ) (n : ℕ) → IsTrue (begins mark_front p) → IsTrue (covers p (mark_name n)) → p ≡ mark_name n }
{}

/// From a well-formed image with nothing touched: while the steps that are left are laid behind an open gate, the folder
/// owes the same; while the gate opens it owes the old image or the new one; and while the gate closes, where the new
/// image is already seen, it owes that. Where a thousand steps are laid and the next mark is made, it owes the same. Behind an
/// open gate it owes the same while names of marks are taken away, other than the first that stand, where these leave the same
/// steps. While private names other than the gate are written behind a closed gate, it owes what it owed.
pub fn still_owed()
    ensures laying { (text : List Step → List ℕ) (steps : List Step) (marks : ℕ) (b a : Image) (due : Bool) (old s : State) → IsOpen text steps marks a old.held → IsImage old.held → IsSettled old
        → ChangedWithin (freed (steps_left marks steps)) (λ q. freed (steps_left marks steps) q || sets (steps_left marks steps) old.held q) old s
        → FolderOwes text b (Some a) due s }
    ensures opening { (text : List Step → List ℕ) (steps : List Step) (marks : ℕ) (a : Image) (old s : State) → IsReady text steps marks a old.held → IsImage old.held → IsSettled old
        → ChangedWithin (covers gate_name) nowhere old s → FolderOwes text (visible old.held) (Some a) false s }
    ensures closing { (text : List Step → List ℕ) (steps : List Step) (marks : ℕ) (b a : Image) (due : Bool) (old s : State) → IsReady text steps marks a old.held → IsImage old.held → IsSettled old
        → visible old.held ≡ a → ChangedWithin (covers gate_name) nowhere old s → FolderOwes text b (Some a) due s }
    ensures marking { (text : List Step → List ℕ) (steps : List Step) (marks : ℕ) (b a : Image) (due : Bool) (old s : State) → IsOpen text steps marks a old.held → IsImage old.held → IsSettled old
        → marks + 2 < 2 ^ 64 → IsTrue (feasible (steps_left (marks + 1) steps) old.held)
        → visible (after (steps_left (marks + 1) steps) old.held) ≡ a → old.held.look (mark_name (marks + 2)) ≡ None
        → ChangedWithin (covers (mark_name (marks + 1))) nowhere old s → FolderOwes text b (Some a) due s }
    ensures unmarking { (text : List Step → List ℕ) (steps : List Step) (marks kept : ℕ) (b a : Image) (due : Bool) (free : List ℕ → Bool) (old s : State) → IsOpen text steps marks a old.held
        → IsSettled old → steps_left kept steps ≡ steps_left marks steps → ((q : List ℕ) → IsTrue (free q) → IsTrue (begins mark_front q))
        → ((i : ℕ) → i < kept → IsFalse (free (mark_name (i + 1)))) → IsFalse (free (mark_name (marks + 1)))
        → ChangedWithin free nowhere old s → FolderOwes text b (Some a) due s }
    ensures sweeping { (text : List Step → List ℕ) (b : Image) (a : Option Image) (due : Bool) (free : List ℕ → Bool) (old s : State) → Owes text b a due old.held → old.held.look gate_name ≡ None
        → IsSettled old → ((q : List ℕ) → IsTrue (free q) → IsTrue (is_private q)) → IsFalse (free gate_name)
        → ChangedWithin free nowhere old s → FolderOwes text b a due s }
{}

/// What is ready stays so, for the same steps and marks: as the gate opens, and whatever of the steps that are left is laid,
/// once or again. Where a thousand of them are laid, the rest can be laid and means the same; with the next mark they are
/// that many fewer. Where names of marks are others, it is ready for as many as stand, if these leave the same steps.
pub fn still_ready()
    ensures opening { (text : List Step → List ℕ) (steps : List Step) (marks : ℕ) (a t u : Image) → IsReady text steps marks a t → IsImage t
        → Agrees (covers gate_name) nowhere t u → IsReady text steps marks a u }
    ensures laying { (text : List Step → List ℕ) (steps : List Step) (marks : ℕ) (a t u : Image) → IsOpen text steps marks a t → IsImage t
        → Agrees (freed (steps_left marks steps)) (sets (steps_left marks steps) t) t u → IsOpen text steps marks a u }
    ensures thousand { (text : List Step → List ℕ) (steps : List Step) (marks : ℕ) (a t u : Image) → IsReady text steps marks a t → u ≡ after (take 1000 (steps_left marks steps)) t
        → IsTrue (feasible (steps_left (marks + 1) steps) u) × (visible (after (steps_left (marks + 1) steps) u) ≡ a) }
    ensures marking { (text : List Step → List ℕ) (steps : List Step) (marks : ℕ) (a t u : Image) → IsOpen text steps marks a t → IsImage t
        → marks + 2 < 2 ^ 64 → IsTrue (feasible (steps_left (marks + 1) steps) t)
        → visible (after (steps_left (marks + 1) steps) t) ≡ a → t.look (mark_name (marks + 2)) ≡ None
        → Agrees (covers (mark_name (marks + 1))) nowhere t u → u.look (mark_name (marks + 1)) ≢ None → IsOpen text steps (marks + 1) a u }
    ensures unmarking { (text : List Step → List ℕ) (steps : List Step) (marks kept : ℕ) (a t u : Image) → IsOpen text steps marks a t
        → steps_left kept steps ≡ steps_left marks steps → AreMarks u kept → Agrees (begins mark_front) nowhere t u → IsOpen text steps kept a u }
{}

/// However a run is stopped, the next one can go on. What a crash leaves of a folder owes the same with nothing touched;
/// where the gate is open, one list of steps stands in its journal and one number of marks beside it, and to lay the steps
/// that these leave gives the new image.
pub fn owed_again()
    ensures crashed { (text : List Step → List ℕ) (b : Image) (a : Option Image) (due : Bool) (s : State) (left : Image) → FolderOwes text b a due s → MayLeave s left
        → FolderOwes text b a due (untouched left) }
    ensures synced { (text : List Step → List ℕ) (b : Image) (a : Option Image) (due : Bool) (s : State) → FolderOwes text b a due s → FolderOwes text b a due (settled s) }
    ensures gate { (text : List Step → List ℕ) (b a : Image) (due : Bool) (t : Image) → Owes text b (Some a) due t → t.look gate_name ≢ None
        → (steps : List Step) × (marks : ℕ) × IsOpen text steps marks a t }
    ensures one_count { (t : Image) (m n : ℕ) → AreMarks t m → AreMarks t n → m ≡ n }
{}
