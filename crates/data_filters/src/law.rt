//! The law of filters.
ghost use Rattle.std.specs.Prelude.{ℕ, List};
ghost use Rattle.filter_tower.specs.declared.tower.FilterLayer.{FilterLayer};
ghost use Rattle.data_filters.specs.declared.reading.Reading.{Reading};
ghost use Rattle.data_filters.specs.Law.{GivesItsRest, GivesFilteredText, ComesBack};

/// What holds of what layers give.
#[tactic(auto, using(crate::proofs::Laws::gives_its_rest, crate::proofs::Laws::gives_filtered_text, crate::proofs::Laws::comes_back))]
pub fn filters_law()
    ensures rest { (text : List ℕ) (layers : List FilterLayer) (layer : ℕ) (reading : Reading)
        → GivesItsRest text layers layer reading }
    ensures filtered { (text : List ℕ) (layers : List FilterLayer) (k : ℕ) (reading : Reading)
        → GivesFilteredText text layers k reading }
    ensures spelled { (bytes : List ℕ) → ComesBack bytes }
{}
