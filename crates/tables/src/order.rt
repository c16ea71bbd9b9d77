ghost use Rattle.tables.specs.Table.{FirstInTable};

// Of the faults of a word the one with the smallest number is told, and a word without a fault is taken.
pub fn faults_are_told_in_order()
    ensures { FirstInTable }
{}
