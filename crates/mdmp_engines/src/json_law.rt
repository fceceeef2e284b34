//! A law of the objects that are printed: the contract of a function that does nothing.
ghost use Rattle.std.specs.Prelude.{ℕ, Bool, List, [], ◌∷◌};
ghost use Rattle.std.specs.List.{Contains};
ghost use Rattle.mdmp_source.specs.Store.{AreBytes};
ghost use Rattle.mdmp_wire.specs.Header.{header_at};
ghost use Rattle.mdmp_lister.specs.declared.choice.Choice.{Choice};
ghost use Rattle.mdmp_lister.specs.declared.item.Item.{Item};
ghost use Rattle.mdmp_lister.specs.Format.Listing.{listing};
ghost use Rattle.mdmp_engines.specs.CheckParts.{parts_text};
ghost use Rattle.mdmp_engines.specs.CheckText.{check_text};
ghost use Rattle.mdmp_print.specs.Forms.{dump_line_in};
ghost use Rattle.mdmp_engines.specs.JsonLaws.{AreJsonLines, list_objects, check_objects, item_objects, parts_objects};
ghost use Rattle.mdmp_print.specs.JsonLines.{dump_object};
ghost use Rattle.mdmp_engines.specs.Text.{list_text, item_lines};
ghost use Rattle.mdmp_print.specs.declared.form.LineForm.TheVariants.{Json};

/// What `list` and `check` print for programs is JSON Lines, of every file of bytes: the text of one
/// object after the other, each with a line feed behind it. That text is UTF-8, no byte of it is a line
/// feed, and the grammar of the crate `json`, that of RFC 8259, reads it back as an object with the
/// tokens that were printed. So are the lines of a header and of each item, whatever types are chosen.
pub fn objects_are_json_texts()
    ensures list { (F : List ℕ) (pdb : Bool) (limit : ℕ) → AreBytes F → AreJsonLines (list_text Json pdb F limit) (list_objects pdb F limit) }
    ensures check { (F : List ℕ) (limit : ℕ) → AreBytes F → AreJsonLines (check_text Json F limit) (check_objects F limit) }
    ensures parts { (F : List ℕ) (limit : ℕ) → AreBytes F → AreJsonLines (parts_text Json F limit) (parts_objects F limit) }
    ensures header { (F : List ℕ) → AreBytes F → AreJsonLines (dump_line_in Json (header_at F 0)) (dump_object (header_at F 0) ∷ []) }
    ensures item { (F : List ℕ) (choice : Choice) (pdb : Bool) (limit : ℕ) (item : Item) → AreBytes F → Contains (listing F choice limit).items item
        → AreJsonLines (item_lines Json pdb F limit item) (item_objects pdb F limit item) }
{}
