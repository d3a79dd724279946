use std::marker::Brand;

/// Names a desk, so that its seats, its book and its lock are known to belong together. Each call
/// that is passed the name `Brand` picks which desk that is.
pub trait Naming {
    ghost use Rattle.atomic_table.specs.Seated.{TableId};
    ghost use Rattle.base.specs.Manifest.{ManifestRows};

    /// The table of its passes.
    ghost table: { TableId };

    /// The manifest that its manager was booted from.
    ghost manifest: { ManifestRows };
}

impl Naming for Brand {
    ghost use Rattle.desk.specs.Names.{no_table, no_manifest};

    ghost table = { no_table };

    ghost manifest = { no_manifest };
}
