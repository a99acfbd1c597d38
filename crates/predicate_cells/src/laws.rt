//! What holds of the cells of every stream.
ghost use Rattle.std.specs.Prelude.{◌<◌, ◌⊎◌, List};
ghost use Rattle.item_schema.specs.declared.column.Column.{Column};
ghost use Rattle.value_ops.specs.declared.field.Field.{Field};
ghost use Rattle.predicate_cells.specs.Cells.{Partition, cell_of, cell_count, CellsDecide};
ghost use Rattle.predicate_cells.specs.Cells.{CellsHaveItems};
ghost use Rattle.predicate_cells.specs.Met.{IsMet, IsUnmet};
ghost use Rattle.predicates.specs.Predicates.{Predicate};

/// Items of one cell agree on every predicate, each cell has an item, and each item a cell.
pub fn cells_part_items()
    ensures decide { (cells : Partition) → CellsDecide cells }
    ensures filled { (cells : Partition) → CellsHaveItems cells }
    ensures below { (cells : Partition) (item : List Field)
        → cell_of cells item < cell_count cells }
{}

/// Some item of a stream meets a predicate, or none does.
pub fn predicates_are_met_or_not()
    ensures { (columns : List Column) (pred : Predicate)
        → IsMet columns pred ⊎ IsUnmet columns pred }
{}
